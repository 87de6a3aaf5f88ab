// The boundary's night log. A reader is, for C, the log's bytes and a place that the caller keeps.
ghost use Rattle.meaning.specs.Longest.{longest};
ghost use Rattle.night_log.specs.Read.{OpenedAs, ReadAs};
ghost use Rattle.night_log.specs.Write.{LogWrittenAs};
ghost use Rattle.night_log.specs.Judge.{LogJudgedAs};
ghost use Rattle.flat.specs.Flat.{FlatAnswer, flat_written, flat_verdict, flat_opened, flat_log_read};

use flat::{FloeLogOpened, FloeLogRead, FloeVerdict, FloeWritten};

pub fn floe_log_write(pattern: &[u8], log: &mut [u8]) -> FloeWritten
    ensures { FlatAnswer (LogWrittenAs pattern.now log.old log.new) flat_written result }
{
    night_log::write_log(pattern, log).into()
}

pub fn floe_log_open(log: &[u8]) -> FloeLogOpened
    ensures { FlatAnswer (OpenedAs log.now) flat_opened result }
{
    night_log::open_log(log).into()
}

pub fn floe_log_next(place: u64, log: &[u8]) -> FloeLogRead
    ensures { FlatAnswer (λ a. ReadAs log.now place a.0 a.1) flat_log_read result }
{
    let mut at = place as usize;
    let outcome = night_log::read_log(log, &mut at);
    (outcome, at as u64).into()
}

pub fn floe_log_judge(set: &[u8], log: &[u8]) -> FloeVerdict
    ensures { FlatAnswer (LogJudgedAs longest set.now log.now) flat_verdict result }
{
    night_log::judge_log(set, log).into()
}
