// Does one set of limits demand at least as much as another? If not, the first pattern between them.
// Refuses by 1 to 7 and 21 for the first set, then for the second, and says which.
#![tactic(auto)]

ghost use Rattle.std.specs.Prelude.{◌≡◌, ◌↔◌, true, false, ◌∷◌, [], ◌++◌, suc, ◌^◌, ◌≤◌, ◌<◌};
ghost use Rattle.meaning.specs.Longest.{longest};
ghost use Rattle.meaning.specs.Sets.{SetAllowed, KeptBy};
ghost use Rattle.compare.specs.Compare.{packed, which_of, why_of, Compares, ComparedAs};
ghost use Rattle.compare.specs.Splits.{outcomes_of, Splits, Scanned};
ghost use Rattle.compare.specs.Allowed.{set_allowed_prop};

use layout::Refused;
use meaning::LimitSet;

// A pattern of at most 16 jobs, one byte an outcome; places past the length are 0.
// The length stands beside the places, since C is given both in a record of fixed size.
#[derive(Clone, Copy, Debug, PartialEq, Eq)]
pub struct Pattern {
    pub length: usize,
    pub outcomes: [u8; 16],
}

// Which of two sets is refused, and why.
#[derive(Clone, Copy, Debug, PartialEq, Eq)]
pub enum RefusedSet {
    First(Refused),
    Second(Refused),
}

impl RefusedSet {
    // The number of the set, 1 or 2.
    pub fn which(self) -> u8
        ensures { result ≡ which_of self }
    {
        match self {
            RefusedSet::First(_) => 1,
            RefusedSet::Second(_) => 2,
        }
    }

    pub fn why(self) -> Refused
        ensures { result ≡ why_of self }
    {
        match self {
            RefusedSet::First(why) | RefusedSet::Second(why) => why,
        }
    }
}

// Two sets, and the length of histories that is enough for both.
#[derive(Drop)]
struct Pair {
    first: LimitSet,
    second: LimitSet,
    m: usize,
    ghost short: { m < longest },
    ghost enough_for_first: { SetAllowed (suc m) first } by { set_allowed_prop (suc m) first },
    ghost enough_for_second: { SetAllowed (suc m) second } by { set_allowed_prop (suc m) second },
}

impl Pair {
    // Of two sets as `sets` reads them. That they are allowed stays a clause: a set is C's record.
    fn of(first: LimitSet, second: LimitSet) -> Pair
        requires { SetAllowed longest first × SetAllowed longest second }
        ensures { (result.first ≡ first) × (result.second ≡ second) }
    {
        let m = history::length_for(first).max(history::length_for(second));
        Pair { first, second, m }
    }

    // Whether the first set keeps the outcomes of a history of m outcomes, walked back from the newest to the oldest miss.
    // A while, since what is left of the history ends the walk, at hits alone, and no count does.
    fn keeps(&self, history: u16) -> bool
        requires { history < 2 ^ self.now.m }
        ensures { (result ≡ true) ↔ KeptBy self.now.first (outcomes_of self.now.m history) }
    {
        let all = history::count_of(self.m) as u16;
        let mut rest = history;
        while rest != all - 1 {
            let before = rest / 2 + all / 2;
            if rest % 2 == 0 && !history::allows_miss(&self.first, before) {
                return false;
            }
            rest = before;
        }
        true
    }

    // Whether, after the outcomes of a history, the first set keeps one more miss and the second doesn't.
    fn splits(&self, history: u16) -> bool
        requires { history < 2 ^ self.now.m }
        ensures { (result ≡ true) ↔ Splits self.now.first self.now.second self.now.m history }
    {
        history::allows_miss(&self.first, history)
            && !history::allows_miss(&self.second, history)
            && self.keeps(history)
    }

    // The lowest history from `low` on, and below `high`, that splits the sets.
    fn scan(&self, low: u16, high: u16) -> Option<u16>
        requires { high ≤ 2 ^ self.now.m }
        ensures { Scanned self.now.first self.now.second self.now.m low high result }
    {
        (low..high).find(|history| self.splits(*history))
    }

    // Histories in the order of their patterns: those whose oldest miss is the newest outcome, the one before it, ..
    // Each has the same length, so within them the lower number is the earlier pattern.
    fn search(&self) -> Option<Pattern>
        ensures { Compares self.now.first self.now.second result }
    {
        let all = history::count_of(self.m) as u16;
        for n in 0..=self.m {
            let block = history::count_of(n) as u16;
            if let Some(found) = self.scan(all - block, all - block / 2) {
                return Some(with_miss(found, n));
            }
        }
        None
    }
}

// The newest n outcomes of a history, and a miss after them.
fn with_miss(history: u16, n: usize) -> Pattern
    requires { n < 16 }
    ensures { result ≡ packed (outcomes_of n history ++ false ∷ []) }
{
    let mut outcomes = [0u8; 16];
    let mut rest = history;
    for i in (0..n).rev() {
        outcomes[i] = (rest % 2) as u8;
        rest /= 2;
    }
    Pattern {
        length: n + 1,
        outcomes,
    }
}

// The first pattern between the sets that these bytes say, or none where the first set covers the second.
pub fn compare(first: &[u8], second: &[u8]) -> Result<Option<Pattern>, RefusedSet>
    ensures { ComparedAs longest first.now second.now result }
{
    let first = sets::read_set(first).map_err(RefusedSet::First)?;
    let second = sets::read_set(second).map_err(RefusedSet::Second)?;
    Ok(Pair::of(first, second).search())
}
