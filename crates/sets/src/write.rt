// The bytes of a set that is in memory, written into a lent buffer.
// Refuses by 3, 5, 6, 7, 21 and then by 9, and a refusal writes nothing.
ghost use Rattle.std.specs.Prelude.{◌≡◌, ◌++◌, ◌+◌, ◌≤◌, length, take, drop};
ghost use Rattle.layout.specs.Refusal.{first};
ghost use Rattle.layout.specs.Refused.{says};
ghost use Rattle.meaning.specs.Longest.{longest};
ghost use Rattle.sets.specs.Bytes.{head_bytes, bytes_of_limit, limit_bytes};
ghost use Rattle.sets.specs.Rows.{memory_rows};
ghost use Rattle.sets.specs.Write.{size_of, WrittenAs};

use super::{test_count, test_limits};
use layout::Refused;
use meaning::{Limit, LimitSet};

// Tests 3, then 5, 6, 7 of each limit, and then 21.
fn test_memory(set: LimitSet, widest: u8) -> Result<(), Refused>
    ensures { says result ≡ first (memory_rows widest set) }
{
    test_count(set.count)?;
    test_limits(set, widest)
}

// The length field, the version and the count.
fn put_head(out: &mut [u8], count: usize)
    requires { (count ≤ 8) × (6 ≤ length out.old) }
    ensures { out.new ≡ head_bytes count ++ drop 6 out.old }
{
    out[..6].copy_from_slice(&[0, 0, 0, (2 + 3 * count) as u8, 1, count as u8]);
}

// The three bytes of a limit. The place stands beside the buffer, as in `layout::put_four`.
fn put_limit(out: &mut [u8], at: usize, limit: Limit)
    requires { at + 3 ≤ length out.old }
    ensures { out.new ≡ take at out.old ++ bytes_of_limit limit ++ drop (at + 3) out.old }
{
    out[at..at + 3].copy_from_slice(&[limit.kind, limit.x, limit.k]);
}

// All limits, from byte 6 on.
fn put_limits(out: &mut [u8], set: LimitSet)
    requires { (set.count ≤ 8) × (size_of set ≤ length out.old) }
    ensures { out.new ≡ take 6 out.old ++ limit_bytes set 0 set.count ++ drop (size_of set) out.old }
{
    for i in 0..set.count {
        put_limit(out, 6 + 3 * i, set.limits[i]);
    }
}

// Writes a set at the start of `out`, and says how many bytes it took.
pub fn write_set(set: LimitSet, out: &mut [u8]) -> Result<usize, Refused>
    ensures { WrittenAs longest set out.old out.new result }
{
    test_memory(set, meaning::LONGEST_WINDOW)?;
    let size = 6 + 3 * set.count;
    if out.len() < size {
        return Err(Refused::Room { needed: size });
    }
    put_head(out, set.count);
    put_limits(out, set);
    Ok(size)
}
