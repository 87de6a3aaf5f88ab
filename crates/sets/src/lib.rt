// The bytes of a set of limits, read and written.
// Reading refuses by 1 to 7 and then by 21; writing a set that is already in memory by 3, 5, 6, 7, 21 and then by 9.
#![tactic(auto)]

ghost use Rattle.std.specs.Prelude.{◌≡◌, ◌&&◌, ◌+◌, ◌*◌, ◌≤◌, [], ◌∷◌, length};
ghost use Rattle.layout.specs.Refusal.{first};
ghost use Rattle.layout.specs.Refused.{says};
ghost use Rattle.meaning.specs.Longest.{longest};
ghost use Rattle.meaning.specs.Limit.{rule_of};
ghost use Rattle.meaning.specs.Test.{idle};
ghost use Rattle.sets.specs.Rows.{limit_rows, count_row, test_rows, head_rows};
ghost use Rattle.sets.specs.Bytes.{set_of, count_of};
ghost use Rattle.sets.specs.Read.{ReadAs};

mod write;

use layout::{HeadFault, Refused};
use meaning::{Kind, Limit, LimitSet};
pub use write::write_set;

// Tests the numbers of the limit that stands at place `i` of its set.
#[tactic(auto, using(crate::proofs::Turns::tests), unfolding(layout::specs::Refusal::first))]
fn test_limit(limit: Limit, widest: u8, i: usize) -> Result<(), Refused>
    ensures { says result ≡ first (limit_rows widest limit i) }
{
    let Ok(kind) = Kind::try_from(limit.kind) else {
        return Err(Refused::LimitKind { limit: i });
    };
    let x = limit.x;
    let k = limit.k;
    if kind == Kind::RowMiss {
        if k != 0 {
            return Err(Refused::LimitK { limit: i });
        }
        if x == 0 {
            return Err(Refused::LimitX { limit: i });
        }
        if widest < x {
            return Err(Refused::LimitX { limit: i });
        }
        return Ok(());
    }
    if k == 0 {
        return Err(Refused::LimitK { limit: i });
    }
    if widest < k {
        return Err(Refused::LimitK { limit: i });
    }
    if k < x {
        return Err(Refused::LimitX { limit: i });
    }
    Ok(())
}

// Whether a limit with allowed numbers can't be broken.
fn is_idle(limit: Limit) -> bool
    ensures { result ≡ idle (rule_of limit) }
{
    match limit.rule_kind() {
        Kind::AnyHit | Kind::RowHit => limit.x == 0,
        Kind::AnyMiss => limit.k <= limit.x,
        Kind::RowMiss => false,
    }
}

// RULES, What each entry tests: "limit after limit, each for 5, 6 and 7; then 21". That the count is at most 8 stays a
// clause: a set is C's record, and may hold any count.
fn test_limits(set: LimitSet, widest: u8) -> Result<(), Refused>
    requires { set.count ≤ 8 }
    ensures { says result ≡ first (test_rows widest set) }
{
    let mut nothing = true;
    for i in 0..set.count {
        let limit = set.limits[i];
        test_limit(limit, widest, i)?;
        nothing &= is_idle(limit);
    }
    if nothing {
        return Err(Refused::LimitsNothing);
    }
    Ok(())
}

// Tests 3, the count of a set.
#[tactic(auto, using(crate::proofs::Turns::tests), unfolding(layout::specs::Refusal::first))]
fn test_count(count: usize) -> Result<(), Refused>
    ensures { says result ≡ first (count_row count ∷ []) }
{
    if !(1..=8).contains(&count) {
        return Err(Refused::LimitCount);
    }
    Ok(())
}

// Tests 1 to 4.
fn test_head(bytes: &[u8]) -> Result<(), Refused>
    ensures { says result ≡ first (head_rows bytes.now) }
{
    match layout::check_head(bytes, 6, 1) {
        Err(HeadFault::Length) => return Err(Refused::SetLength),
        Err(HeadFault::Version) => return Err(Refused::SetVersion),
        Ok(()) => {}
    }
    let rest = layout::length_field(bytes);
    let count = layout::wide(bytes[5]);
    test_count(count)?;
    if rest != 2 + 3 * count {
        return Err(Refused::LimitsLength);
    }
    Ok(())
}

// The limits that the bytes hold, as they are.
#[tactic(auto, unfolding(crate::specs::Bytes::limits_in))]
fn take_limits(bytes: &[u8], count: usize) -> LimitSet
    requires { (count ≡ count_of bytes.now) × (count ≤ 8) × (6 + 3 * count ≤ length bytes.now) }
    ensures { result ≡ set_of bytes.now }
{
    let mut limits = [Limit::default(); 8];
    for i in 0..count {
        let at = 6 + 3 * i;
        limits[i] = Limit {
            kind: bytes[at],
            x: bytes[at + 1],
            k: bytes[at + 2],
        };
    }
    LimitSet { count, limits }
}

// Reads a set whose windows are at most `widest` jobs.
pub fn read_set_within(bytes: &[u8], widest: u8) -> Result<LimitSet, Refused>
    ensures { ReadAs widest bytes.now result }
{
    test_head(bytes)?;
    let set = take_limits(bytes, layout::wide(bytes[5]));
    test_limits(set, widest)?;
    Ok(set)
}

pub fn read_set(bytes: &[u8]) -> Result<LimitSet, Refused>
    ensures { ReadAs longest bytes.now result }
{
    read_set_within(bytes, meaning::LONGEST_WINDOW)
}
