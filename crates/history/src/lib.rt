// The history machine of a set: its state is the last outcomes in a number, the newest in the low bit. A hit is always
// possible; whether a miss is, this crate says from the history alone, limit by limit. How long a history has to be,
// `reach` says for a limit and `length_for` for a set, and how far back the earliest window begins that a miss breaks,
// `broken_reach`. C hands over limits and sets as they are, so that their numbers are allowed is asked for in the
// contracts and is no part of the types.
#![tactic(auto)]

ghost use Rattle.std.specs.Prelude.{◌≡◌, true, false, cond, ℕ, ◌+◌, ◌-◌, ◌%◌, ◌^◌, ◌≤◌, ◌<◌, leb};
ghost use Rattle.meaning.specs.Longest.{longest};
ghost use Rattle.meaning.specs.Limit.{Allowed, rule_of, width};
ghost use Rattle.meaning.specs.Holds.{hits};
ghost use Rattle.meaning.specs.Sets.{SetAllowed};
ghost use Rattle.meaning.specs.Test.{has_run};
ghost use Rattle.history.specs.History.{shifted, newest};
ghost use Rattle.history.specs.MayMiss.{may_miss_under, may_miss, BlockedBy};
ghost use Rattle.history.specs.Reaches.{Reaches};
ghost use Rattle.history.specs.Length.{LongEnough, Histories};

use meaning::{Kind, Limit, LimitSet};

// The history in which every outcome is a hit, at the library's longest window.
pub const ALL_HITS: u16 = (1 << (meaning::LONGEST_WINDOW - 1)) - 1;

// The history after one more outcome. `mask` is the history of hits only, for the length that is kept.
pub fn push(history: u16, hit: bool, mask: u16) -> u16
    requires { (history ≤ mask) × (mask < 32768) }
    ensures { (result ≡ shifted mask history hit) × (result ≤ mask) }
{
    ((history << 1) | (hit as u16)) & mask
}

// The same where histories are indices, and n is how many there are: one call of `push`, and no second form of it.
pub fn push_index(history: usize, hit: bool, n: usize) -> usize
    requires { (history < n) × (n ≤ 32768) }
    ensures { (result ≡ shifted (n - 1) history hit) × (result < n) }
{
    push(history as u16, hit, (n - 1) as u16) as usize
}

// The newest n outcomes of a history.
#[derive(Clone, Copy)]
struct Latest {
    history: u16,
    n: u8,
    ghost fits: { n < 32 }, // what a shift of a u32 takes
}

impl Latest {
    // These outcomes, and nothing above them.
    fn bits(self) -> u32
        ensures { result ≡ self.history % 2 ^ self.n }
    {
        self.history as u32 & ((1 << self.n) - 1)
    }

    // How many of them are hits.
    fn hits(self) -> u32
        ensures { result ≡ hits (newest self.n self.history) }
    {
        u32::count_ones(self.bits())
    }

    // Whether x of them are hits.
    fn has_hits(self, x: u8) -> bool
        ensures { result ≡ leb x (hits (newest self.n self.history)) }
    {
        x as u32 <= self.hits()
    }

    // Whether x hits stand in a row among them: a step for each run of hits, the newest first.
    fn has_row(self, x: u8) -> bool
        ensures { result ≡ has_run x (newest self.n self.history) }
    {
        let mut rest = self.bits();
        while rest != 0 {
            let from_hit = rest >> u32::trailing_zeros(rest);
            let run = u32::trailing_zeros(!from_hit);
            if x as u32 <= run {
                return true;
            }
            rest = from_hit >> run;
        }
        x == 0
    }
}

// Whether a miss can follow under one limit.
pub fn limit_may_miss(limit: Limit, history: u16) -> bool
    requires { Allowed longest limit }
    ensures { result ≡ may_miss_under (rule_of limit) history }
{
    let x = limit.x;
    let k = limit.k;
    match limit.rule_kind() {
        Kind::AnyHit => Latest { history, n: k - 1 }.has_hits(x),
        Kind::RowHit => Latest { history, n: k - x }.has_row(x),
        Kind::AnyMiss => Latest { history, n: k - 1 }.has_hits(k - x),
        Kind::RowMiss => Latest { history, n: x - 1 }.has_hits(1),
    }
}

// The lowest-numbered limit of a lent set under which a miss can't follow, where there is one: the set stays where it
// lies. Inlined, a loop around it would hold the set in registers and store it anew at each miss.
#[inline(never)]
pub fn blocked_by(set: &LimitSet, history: u16) -> Option<usize>
    requires { SetAllowed longest set.now }
    ensures { BlockedBy set.now history result }
{
    for i in 0..set.count {
        if !limit_may_miss(set.limits[i], history) {
            return Some(i);
        }
    }
    None
}

// The same of a set by value.
pub fn blocking_limit(set: LimitSet, history: u16) -> Option<usize>
    requires { SetAllowed longest set }
    ensures { BlockedBy set history result }
{
    blocked_by(&set, history)
}

// Whether a miss can follow under every limit of a lent set.
pub fn allows_miss(set: &LimitSet, history: u16) -> bool
    requires { SetAllowed longest set.now }
    ensures { result ≡ may_miss set.now history }
{
    blocked_by(set, history).is_none()
}

// The same of a set by value.
pub fn may_miss(set: LimitSet, history: u16) -> bool
    requires { SetAllowed longest set }
    ensures { result ≡ may_miss set history }
{
    allows_miss(&set, history)
}

// How many outcomes before a job lie in one window with it.
pub fn reach(limit: Limit) -> usize
    requires { Allowed longest limit }
    ensures { result + 1 ≡ width (rule_of limit) }
{
    match limit.rule_kind() {
        Kind::AnyHit | Kind::RowHit | Kind::AnyMiss => (limit.k - 1) as usize,
        Kind::RowMiss => (limit.x - 1) as usize,
    }
}

// The length of histories that the set's own widest window asks for.
pub fn length_for(set: LimitSet) -> usize
    requires { SetAllowed longest set }
    ensures { LongEnough set result }
{
    let mut length = 0;
    for limit in &set.limits[..set.count] {
        length = length.max(reach(*limit));
    }
    length
}

// How many histories of m outcomes there are.
pub fn count_of(m: usize) -> usize
    requires { m < longest }
    ensures { Histories m result }
{
    1 << m
}

// The length of a run of hits after one more outcome: a miss ends it.
fn next_run(run: u8, hit: bool) -> u8
    requires { run < 255 }
    ensures { result ≡ cond hit (run + 1) 0 }
{
    if hit {
        return run + 1;
    }
    0
}

// How many of the newest outcomes, n at most, have no x hits in a row among them: a step for each outcome, the newest first.
fn before_row(history: u16, n: u8, x: u8) -> u8
    requires { 0 < x }
    ensures { (result ≤ n) × (has_run x (newest result history) ≡ false) × ((a : ℕ) → result < a → a ≤ n → has_run x (newest a history) ≡ true) }
{
    let mut rest = history;
    let mut run = 0;
    for passed in 0..n {
        run = next_run(run, rest % 2 == 1);
        if x <= run {
            return passed;
        }
        rest /= 2;
    }
    n
}

// How many outcomes before a miss that can't follow lie in the earliest window that it breaks.
pub fn broken_reach(limit: Limit, history: u16) -> usize
    requires { Allowed longest limit × (may_miss_under (rule_of limit) history ≡ false) }
    ensures { Reaches (rule_of limit) history result }
{
    match limit.rule_kind() {
        Kind::RowHit => before_row(history, limit.k - 1, limit.x) as usize,
        _ => reach(limit),
    }
}
