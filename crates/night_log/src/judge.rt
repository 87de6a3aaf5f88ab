// The verdict on the outcomes that a log holds: one pass over the packed bytes.
// Refuses by 1 to 7 and 21 for the set, then by 15 and 16 for the log.
ghost use Rattle.meaning.specs.Longest.{longest};
ghost use Rattle.night_log.specs.Judge.{LogJudgedAs};

use super::{check_log, outcome_in};
use layout::Refused;
use verdict::Loss;

pub fn judge_log(set: &[u8], log: &[u8]) -> Result<Option<Loss>, Refused>
    ensures { LogJudgedAs longest set.now log.now result }
{
    let set = sets::read_set(set)?;
    let count = check_log(log)?;
    Ok(verdict::judge_each(set, count, |i| outcome_in(log, i)))
}
