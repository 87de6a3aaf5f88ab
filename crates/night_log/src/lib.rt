// The night log: the outcomes of a visit as they are stored, eight to a byte. Here it is read, one outcome a call.
// Refuses by 15 for a log that isn't one, then by 16 for unused bits that aren't zero; each call tests both, in constant time.
#![tactic(auto)]

ghost use Rattle.std.specs.Prelude.{◌≡◌, ◌+◌, ◌*◌, ◌/◌, ◌%◌, ◌^◌, ◌≤◌, ◌<◌, length, IfOk};
ghost use Rattle.layout.specs.Refusal.{first};
ghost use Rattle.layout.specs.Refused.{says};
ghost use Rattle.night_log.specs.Bytes.{packed_size, count_of, outcome_in};
ghost use Rattle.night_log.specs.Rows.{log_rows};
ghost use Rattle.night_log.specs.Read.{OpenedAs, ReadAs};

mod judge;
mod reader;
mod write;

pub use judge::judge_log;
use layout::Refused;
pub use reader::LogReader;
pub use write::write_log;

// How many bytes so many outcomes take.
fn packed_size(count: usize) -> usize
    requires { count < 4294967296 }
    ensures { (result ≡ packed_size count) × (result ≤ 536870912) × (count ≤ 8 * result) × (8 * result < count + 8) }
{
    (count + 7) / 8
}

// What the n low bits of a byte hold.
fn low_bits(byte: u8, n: usize) -> u8
    requires { n < 8 }
    ensures { result ≡ byte % 2 ^ n }
{
    byte & ((1 << n) - 1)
}

// Tests 15 and then 16, and says how many outcomes the log holds.
fn check_log(log: &[u8]) -> Result<usize, Refused>
    ensures refusal { says result ≡ first (log_rows log.now) }
    ensures count { IfOk result (λ n. (n ≡ count_of log.now) × (n < 4294967296)) }
{
    if layout::check_head(log, 9, 1).is_err() {
        return Err(Refused::Log); // a length and a version alike
    }
    let count = layout::four_at(log, 5);
    let size = packed_size(count);
    if layout::length_field(log) != 5 + size {
        return Err(Refused::Log); // not the bytes that the count takes
    }
    if low_bits(log[8 + size], 8 * size - count) != 0 {
        return Err(Refused::UnusedBits);
    }
    Ok(count)
}

// Outcome i of the packed bytes.
fn outcome_in(log: &[u8], i: usize) -> bool
    requires { (9 + i / 8 < length log.now) × (i < 4294967296) }
    ensures { result ≡ outcome_in log.now i }
{
    (log[9 + i / 8] >> (7 - i % 8)) % 2 != 0
}

// Whether the bytes are a log.
pub fn open_log(log: &[u8]) -> Result<(), Refused>
    ensures { OpenedAs log.now result }
{
    check_log(log)?;
    Ok(())
}

// The outcome at a place, which moves on by one, or none past the last one; the end and a refusal keep the place.
pub fn read_log(log: &[u8], place: &mut usize) -> Result<Option<bool>, Refused>
    ensures { ReadAs log.now place.old result place.new }
{
    let count = check_log(log)?;
    let at = *place;
    if count <= at {
        return Ok(None);
    }
    *place = at + 1;
    Ok(Some(outcome_in(log, at)))
}
