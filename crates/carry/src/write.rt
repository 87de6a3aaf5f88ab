// A guard's record, written into a lent buffer.
// Refuses by 1 to 7, 21 and then by 9, and a refusal writes nothing.
ghost use Rattle.std.specs.Prelude.{◌≡◌, ◌++◌, map, ◌+◌, ◌≤◌, ◌<◌, length, take, drop};
ghost use Rattle.patterns.specs.Outcome.{bit};
ghost use Rattle.meaning.specs.Longest.{longest};
ghost use Rattle.carry.specs.Bytes.{carried, new_version, head_bytes, tail_bytes, tail_size};
ghost use Rattle.carry.specs.Write.{RecordWrittenAs};

use super::{AFTER, NEW};
use guard::{Guard, HELD};
use layout::Refused;

// What stands after the set's bytes: the outcomes, the count and the lost byte.
const TAIL: usize = HELD + AFTER;

// All that stands around the set's bytes.
const AROUND: usize = 5 + TAIL;

// The length field, the version and the set's bytes. Those are stored one by one: `copy_from_slice` would call
// `memmove`, and of the C library the archive calls `memset` alone. Each layout stores its head by itself: a call would
// be no shorter.
fn put_set(set: &[u8], out: &mut [u8])
    requires { (length set.now < 256) × (5 + length set.now ≤ length out.old) }
    ensures { out.new ≡ head_bytes new_version carried set.now ++ drop (5 + length set.now) out.old }
{
    layout::put_four(out, 0, 1 + set.len() + TAIL);
    out[4] = NEW.number;
    for (i, byte) in set.iter().enumerate() {
        out[5 + i] = *byte;
    }
}

// The outcomes, one byte each. The place stands beside the buffer, here and below, as in `layout::put_four`.
fn put_outcomes(out: &mut [u8], at: usize, outcomes: [bool; HELD])
    requires { at + carried ≤ length out.old }
    ensures { out.new ≡ take at out.old ++ map bit outcomes ++ drop (at + carried) out.old }
{
    for (i, hit) in outcomes.iter().enumerate() {
        out[at + i] = *hit as u8;
    }
}

// What stands after the set's bytes.
fn put_guard(out: &mut [u8], at: usize, guard: Guard)
    requires { at + tail_size carried ≤ length out.old }
    ensures { out.new ≡ take at out.old ++ tail_bytes guard ++ drop (at + tail_size carried) out.old }
{
    let outcomes = guard.outcomes;
    put_outcomes(out, at, outcomes);
    layout::put_eight(out, at + HELD, guard.count);
    out[at + HELD + 8] = guard.lost as u8;
}

// Writes a guard with the bytes of a set at the start of `out`, and says how many bytes it took.
pub fn write_record(guard: Guard, set: &[u8], out: &mut [u8]) -> Result<usize, Refused>
    ensures { RecordWrittenAs longest carried guard set.now out.old out.new result }
{
    sets::read_set(set)?;
    let n = set.len();
    let size = n + AROUND;
    if out.len() < size {
        return Err(Refused::Room { needed: size });
    }
    put_set(set, out);
    put_guard(out, 5 + n, guard);
    Ok(size)
}
