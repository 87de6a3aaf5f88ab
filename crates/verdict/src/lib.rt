// The verdict on a pattern: kept, or lost at a job with the lowest limit that breaks there and its earliest broken window.
// Refuses by 1 to 7 and 21 for the set, then by 26 and by 13 for the whole pattern, even where it is lost earlier.
#![tactic(auto)]

ghost use Rattle.std.specs.Prelude.{◌≡◌, ℕ, Bool, List, ◌-◌, ◌≤◌, ◌<◌, ◌^◌, length, pos, ◌-ℤ◌, Ok};
ghost use Rattle.meaning.specs.Longest.{longest};
ghost use Rattle.meaning.specs.Sets.{SetAllowed};
ghost use Rattle.history.specs.MayMiss.{Blocks};
ghost use Rattle.verdict.specs.Judge.{most_jobs, Verdict, JudgedAs};
ghost use Rattle.verdict.specs.Turn.{Turned, SaysLost, Gives};

use layout::Refused;
use meaning::LimitSet;

// The most jobs that a pattern may have, so that the number of each is an i64.
const MOST_JOBS: usize = 9223372036854775807;

// Where a pattern is lost. `first` is the first job of the window that broke; it may lie before job 1.
#[derive(Clone, Copy, Debug, PartialEq, Eq)]
pub struct Loss {
    pub job: u64,
    pub limit: usize,
    pub first: i64,
}

// What every judge does at each outcome: a hit keeps, and a miss is looked at. The history that is left, or the limit
// that blocks the miss. That the set is allowed stays a clause of the public functions here, which take a set as it
// lies in memory.
pub fn take_turn(set: LimitSet, history: u16, hit: bool) -> Result<u16, usize>
    requires { SetAllowed longest set × (history < 2 ^ (longest - 1)) }
    ensures { Turned set history hit result }
{
    turn(&set, history, hit)
}

// The same where the set is lent, so that no hit copies it or makes a call.
#[inline]
fn turn(set: &LimitSet, history: u16, hit: bool) -> Result<u16, usize>
    requires { SetAllowed longest set.now × (history < 2 ^ (longest - 1)) }
    ensures { Turned set.now history hit result }
{
    if !hit {
        if let Some(limit) = history::blocked_by(set, history) {
            return Err(limit);
        }
    }
    Ok(history::push(history, hit, history::ALL_HITS))
}

// The job that lies so many before another.
fn first_job(job: u64, back: usize) -> i64
    requires { (job ≤ most_jobs) × (back < longest) }
    ensures { result ≡ pos job -ℤ pos back }
{
    job as i64 - back as i64
}

// What every judge answers where a limit blocks the miss after the first `before` outcomes. Inlined, the judge's loop
// would keep a second copy of the set for it.
#[inline(never)]
pub fn lost_by(set: LimitSet, history: u16, before: usize, limit: usize) -> Loss
    requires { SetAllowed longest set × Blocks set history limit × (limit < set.count) × (before < most_jobs) }
    ensures { SaysLost set history before limit result }
{
    let broken = set.limits[limit];
    let back = history::broken_reach(broken, history);
    let job = before as u64 + 1;
    Loss {
        job,
        limit,
        first: first_job(job, back),
    }
}

// One pass over so many outcomes, each asked for in its turn: kept, or where they are lost.
pub fn judge_each<F: Fn(usize) -> bool>(set: LimitSet, count: usize, outcome: F) -> Option<Loss>
    requires allowed { SetAllowed longest set }
    requires jobs { count ≤ most_jobs }
    requires can { (i : ℕ) → i < count → F.pre outcome i }
    ensures { (p : List Bool) → length p ≡ count → Gives (F.post outcome) p → Verdict set p (Ok result) }
{
    let mut history = history::ALL_HITS;
    for i in 0..count {
        match turn(&set, history, outcome(i)) {
            Ok(next) => history = next,
            Err(limit) => return Some(lost_by(set, history, i, limit)),
        }
    }
    None
}

pub fn judge(set: &[u8], pattern: &[u8]) -> Result<Option<Loss>, Refused>
    ensures { JudgedAs longest set.now pattern.now result }
{
    let set = sets::read_set(set)?;
    if MOST_JOBS < pattern.len() {
        return Err(Refused::PatternLength);
    }
    if let Some(place) = patterns::first_bad(pattern) {
        return Err(Refused::Outcome { place });
    }
    Ok(judge_each(set, pattern.len(), |i| pattern[i] != 0))
}
