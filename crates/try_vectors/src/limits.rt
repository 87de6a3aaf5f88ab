// Sets read and written again, patterns judged and sets compared, as a vector's fields give them.
use crate::{answers, fields, memory, text};

pub(crate) fn try_read(rt: &impl Print, line: &[u8]) {
    let mut space = [0u8; 64];
    let set = fields::bytes(fields::field(line, 1), &mut space);
    answers::print_read(rt, sets::read_set(set));
}

pub(crate) fn try_write(rt: &impl Print, line: &[u8]) {
    let mut space = [0u8; 64];
    let set = fields::bytes(fields::field(line, 1), &mut space);
    match sets::read_set(set) {
        Ok(set) => memory::write_again(rt, set),
        Err(refused) => text::print_refusal(rt, refused),
    }
}

pub(crate) fn try_judge(rt: &impl Print, line: &[u8]) {
    let mut set_space = [0u8; 64];
    let mut pattern_space = [0u8; 64];
    let set = fields::bytes(fields::field(line, 1), &mut set_space);
    let pattern = fields::outcomes(fields::field(line, 2), &mut pattern_space);
    answers::print_judged(rt, verdict::judge(set, pattern));
}

pub(crate) fn try_compare(rt: &impl Print, line: &[u8]) {
    let mut first_space = [0u8; 64];
    let mut second_space = [0u8; 64];
    let first = fields::bytes(fields::field(line, 1), &mut first_space);
    let second = fields::bytes(fields::field(line, 2), &mut second_space);
    answers::print_compared(rt, compare::compare(first, second));
}
