// What several answers are made of, printed to standard output: words, bytes, outcomes, a buffer, a refusal.
// Where there are no bytes or outcomes, `-` is printed.
// No contract can say what is written, so these are only proved safe, and ending. Of a write that fails they say nothing.
use layout::Refused;

pub(crate) fn print(rt: &impl Print, words: &str) {
    let _ = rt.write_all(words.as_bytes());
}

// Each value in so many hexadecimal digits.
fn print_values(rt: &impl Print, values: &[u8], digits: usize) {
    if values.is_empty() {
        print(rt, "-");
    }
    for value in values {
        let _ = print!(rt; "{value:0digits$X}");
    }
}

pub(crate) fn print_bytes(rt: &impl Print, bytes: &[u8]) {
    print_values(rt, bytes, 2);
}

pub(crate) fn print_outcomes(rt: &impl Print, outcomes: &[u8]) {
    print_values(rt, outcomes, 1);
}

// As `: 0304`.
pub(crate) fn print_buffer(rt: &impl Print, out: &[u8]) {
    print(rt, ": ");
    print_bytes(rt, out);
}

// As `refused 3 at 0`.
pub(crate) fn print_refusal(rt: &impl Print, refused: Refused) {
    let _ = print!(rt; "refused {} at {}", refused.number(), refused.at());
}
