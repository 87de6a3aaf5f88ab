// Patterns: finite lists of outcomes, oldest first, one byte an outcome. Here a pattern is tested for 13;
// specs/ say what a byte's outcome is, which of two patterns comes first and what number a pattern writes.
#![tactic(auto)]

ghost use Rattle.std.specs.Prelude.{◌≡◌, ◌<◌, length, IfSome};
ghost use Rattle.layout.specs.Refusal.{first};
ghost use Rattle.patterns.specs.Outcome.{outcome_rows};
ghost use Rattle.patterns.specs.Tested.{bad_place};

// The place of the first byte that is neither 0 nor 1, if there is one.
pub fn first_bad(pattern: &[u8]) -> Option<usize>
    ensures tested { first (outcome_rows pattern.now 0) ≡ bad_place result }
    ensures below { IfSome result (λ i. i < length pattern.now) }
{
    for (i, byte) in pattern.iter().enumerate() {
        if 1 < *byte {
            return Some(i);
        }
    }
    None
}
