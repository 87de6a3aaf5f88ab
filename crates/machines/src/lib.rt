// Machines with at most one next state for each outcome: when two states are the same, the one numbered
// smallest machine of a language, and that it is unique and smallest. No code of its own, and no limits.
#![tactic(auto)]
