// What the program prints for the bytes of a set: the lines of its table, or the one line of a refusal.
// The text goes into a lent buffer and is cut at its end; LONGEST_TEXT bytes hold the text of every set.
// An input of more than 64 bytes is refusal 1, whatever it holds; any other is refused as by the builder.
#![tactic(auto)]

mod lines;
mod put;

ghost use Rattle.std.specs.Prelude.{take};
ghost use Rattle.printing.specs.Longest.{printed_longest};
ghost use Rattle.printing.specs.Print.{PrintedAs, Lent, PrintedWhole};

use layout::Refused;
use put::Text;

// The most bytes of an input that are looked at.
const MOST_BYTES: usize = 64;

// The longest window that is printed. The program's arrays are sized by it, and the library's window would ask for
// sixteen times as much.
const LONGEST_WINDOW: u8 = 12;

// `states 2048` and 2,048 lines as `2047 2047 2047`, each with its newline.
pub const LONGEST_TEXT: usize = 12 + 15 * (1 << (LONGEST_WINDOW - 1));

// Puts the text for an input at the start of `out`, and says how many bytes of it are there.
pub fn print_set(input: &[u8], work: &mut [u16], table: &mut [u8], out: &mut [u8]) -> usize
    ensures { PrintedAs printed_longest input.now work.old work.new table.old table.new out.old out.new result }
{
    let mut text = Text::start(out);
    if MOST_BYTES < input.len() {
        text.put_refusal(Refused::SetLength);
        return text.length();
    }
    match builder::build_within(input, LONGEST_WINDOW, work, table) {
        Ok(size) => text.put_table(&table[..size]),
        Err(refused) => text.put_refusal(refused),
    }
    text.length()
}

// The same for the program, which reads `size` bytes, at most 65, and lends enough of everything: no text is cut, and
// no set is refused by 8 or 9. The array comes whole beside `size`, since what is required says how long it is.
pub fn print_input(
    input: &[u8],
    size: usize,
    work: &mut [u16],
    table: &mut [u8],
    out: &mut [u8],
) -> usize
    requires { Lent input.now size work.old table.old out.old }
    ensures { PrintedWhole printed_longest (take size input.now) work.old work.new table.old table.new out.old out.new result }
{
    print_set(&input[..size], work, table, out)
}
