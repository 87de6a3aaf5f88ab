// Sets in memory and the writing of them: what the bytes of a vector can't say by being read, as a count of 9.
// A vector's first byte is the count; kind, x and k follow for as many limits as it has bytes, at most eight.
// A buffer holds EE throughout before a set from memory is written, and is shown whole afterwards.
use crate::{answers, fields, text};
use meaning::{Limit, LimitSet};

fn set_of(bytes: &[u8]) -> LimitSet {
    let mut limits = [Limit::default(); 8];
    let [count, rules @ ..] = bytes else {
        return LimitSet { count: 0, limits };
    };
    let (rules, _) = rules.as_chunks::<3>();
    for (limit, [kind, x, k]) in limits.iter_mut().zip(rules) {
        *limit = Limit {
            kind: *kind,
            x: *x,
            k: *k,
        };
    }
    LimitSet {
        count: *count as usize,
        limits,
    }
}

// Writes a set that was read, and shows the bytes that it took.
pub(crate) fn write_again(rt: &impl Print, set: LimitSet) {
    let mut out = [0u8; 64];
    let written = sets::write_set(set, &mut out);
    answers::print_written(rt, written);
    text::print_buffer(rt, &out[..written.unwrap_or(0).min(64)]);
}

// Writes the set that one field gives into a buffer of the size that the other gives, and shows the buffer.
pub(crate) fn write_from(rt: &impl Print, line: &[u8]) {
    let mut space = [0u8; 64];
    let set = set_of(fields::bytes(fields::field(line, 1), &mut space));
    let mut out = [0xEEu8; 64];
    let size = fields::size(fields::field(line, 2));
    answers::print_written(rt, sets::write_set(set, &mut out[..size]));
    text::print_buffer(rt, &out[..size]);
}
