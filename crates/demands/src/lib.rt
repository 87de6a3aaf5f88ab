// What the user asked for, in three demands, as theorems over the promises of all public functions.
// No code. specs/ say what a theorem says of one answer; proofs/ have a file for each demand, one for the C boundary and
// one for the worked rows of the rules, and the files that these rest on.
#![tactic(auto)]
