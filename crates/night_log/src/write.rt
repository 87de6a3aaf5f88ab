// The log of a pattern, written into a lent buffer.
// Refuses by 15 for too many outcomes, then by 13, then by 9, and a refusal writes nothing.
ghost use Rattle.std.specs.Prelude.{◌≡◌, ◌++◌, ◌+◌, ◌≤◌, ◌<◌, length, take, drop};
ghost use Rattle.patterns.specs.Outcome.{outcomes, bit, AllOutcomes};
ghost use Rattle.night_log.specs.Bytes.{packed_size, size_of, outcome_at, byte_from, half_from, packed, head_bytes};
ghost use Rattle.night_log.specs.Write.{LogWrittenAs};

use super::packed_size;
use layout::Refused;

// The most outcomes that the four bytes of a count can say.
const MOST_OUTCOMES: usize = 4294967295;

// A pattern of which every byte is an outcome, and that a count of four bytes can say.
#[derive(Clone, Copy)]
struct Checked<'a> {
    pattern: &'a [u8],
    ghost all: { AllOutcomes pattern.now },
    ghost few: { length pattern.now < 4294967296 },
}

impl<'a> Checked<'a> {
    // The bit of outcome i.
    fn bit_in(self, i: usize) -> u8
        requires { i < length self.pattern.now }
        ensures { (result ≡ bit (outcome_at (outcomes self.entry.pattern.now) i)) × (result ≤ 1) }
    {
        self.pattern[i]
    }

    // The number that four outcomes write. Sums of weights, and no chain of doublings: the processor adds them side by
    // side.
    fn half_byte(self, i: usize) -> u8
        requires { i + 4 ≤ length self.pattern.now }
        ensures { (result ≡ half_from (outcomes self.entry.pattern.now) i) × (result < 16) }
    {
        self.bit_in(i) * 8 + self.bit_in(i + 1) * 4 + self.bit_in(i + 2) * 2 + self.bit_in(i + 3)
    }

    // The byte of eight outcomes.
    fn full_byte(self, i: usize) -> u8
        requires { i + 8 ≤ length self.pattern.now }
        ensures { result ≡ byte_from (outcomes self.entry.pattern.now) i }
    {
        self.half_byte(i) * 16 + self.half_byte(i + 4)
    }

    // The bit of outcome i, 0 past the last one.
    fn bit_at(self, i: usize) -> u8
        ensures { (result ≡ bit (outcome_at (outcomes self.entry.pattern.now) i)) × (result ≤ 1) }
    {
        if i < self.pattern.len() {
            return self.bit_in(i);
        }
        0
    }

    // The byte of the outcomes from outcome i on where fewer than eight may be left.
    fn last_byte(self, i: usize) -> u8
        requires { i < 4294967296 }
        ensures { result ≡ byte_from (outcomes self.entry.pattern.now) i }
    {
        let mut byte = 0;
        for k in 0..8 {
            byte = byte * 2 + self.bit_at(i + k);
        }
        byte
    }

    fn byte_from(self, i: usize) -> u8
        requires { i < 4294967296 }
        ensures { result ≡ byte_from (outcomes self.entry.pattern.now) i }
    {
        if i + 8 <= self.pattern.len() {
            return self.full_byte(i);
        }
        self.last_byte(i)
    }

    // Writes the outcomes, from byte 9 on.
    fn put_outcomes(self, out: &mut [u8])
        requires { size_of (length self.pattern.now) ≤ length out.old }
        ensures { out.new ≡ take 9 out.old ++ packed (outcomes self.entry.pattern.now) 0 (packed_size (length self.entry.pattern.now)) ++ drop (size_of (length self.entry.pattern.now)) out.old }
    {
        for j in 0..packed_size(self.pattern.len()) {
            out[9 + j] = self.byte_from(8 * j);
        }
    }
}

// The length field, the version and the count. Each layout stores the first two by itself: a call would be no shorter.
fn put_head(out: &mut [u8], count: usize)
    requires { (count < 4294967296) × (9 ≤ length out.old) }
    ensures { out.new ≡ head_bytes count ++ drop 9 out.old }
{
    layout::put_four(out, 0, 5 + packed_size(count));
    out[4] = 1;
    layout::put_four(out, 5, count);
}

// Writes the log of a pattern at the start of `out`, and says how many bytes it took.
pub fn write_log(pattern: &[u8], out: &mut [u8]) -> Result<usize, Refused>
    ensures { LogWrittenAs pattern.now out.old out.new result }
{
    let count = pattern.len();
    if MOST_OUTCOMES < count {
        return Err(Refused::Log);
    }
    if let Some(place) = patterns::first_bad(pattern) {
        return Err(Refused::Outcome { place });
    }
    let checked = Checked { pattern };
    let needed = 9 + packed_size(count);
    if out.len() < needed {
        return Err(Refused::Room { needed });
    }
    put_head(out, count);
    checked.put_outcomes(out);
    Ok(needed)
}
