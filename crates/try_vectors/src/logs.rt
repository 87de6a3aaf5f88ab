// Night logs written, opened, read one outcome a call and judged, as a vector's fields give them.
// A buffer holds EE throughout before a log is written; it is shown whole afterwards, with the byte past its end.
// The place where the reader then stands follows its answers.
use crate::{answers, fields, text};

pub(crate) fn try_write(rt: &impl Print, line: &[u8]) {
    let mut space = [0u8; 320];
    let mut out = [0xEEu8; 65];
    let pattern = fields::outcomes(fields::field(line, 1), &mut space);
    let size = fields::size(fields::field(line, 2));
    answers::print_written(rt, night_log::write_log(pattern, &mut out[..size]));
    text::print_buffer(rt, &out[..size + 1]);
}

pub(crate) fn try_open(rt: &impl Print, line: &[u8]) {
    let mut space = [0u8; 320];
    let log = fields::bytes(fields::field(line, 1), &mut space);
    answers::print_done(rt, night_log::open_log(log), "opened");
}

// The reader's answers to so many calls from a place on.
fn read_on(rt: &impl Print, log: &[u8], start: usize, calls: usize) {
    let mut place = start;
    for _ in 0..calls {
        answers::print_handed(rt, night_log::read_log(log, &mut place));
        text::print(rt, ", ");
    }
    let _ = print!(rt; "place {place}");
}

pub(crate) fn try_at(rt: &impl Print, line: &[u8]) {
    let mut space = [0u8; 320];
    let log = fields::bytes(fields::field(line, 1), &mut space);
    read_on(rt, log, fields::long_number(fields::field(line, 2)), 1);
}

pub(crate) fn try_calls(rt: &impl Print, line: &[u8]) {
    let mut space = [0u8; 320];
    let log = fields::bytes(fields::field(line, 1), &mut space);
    read_on(rt, log, 0, fields::long_number(fields::field(line, 2)));
}

pub(crate) fn try_judge(rt: &impl Print, line: &[u8]) {
    let mut set_space = [0u8; 64];
    let mut log_space = [0u8; 320];
    let set = fields::bytes(fields::field(line, 1), &mut set_space);
    let log = fields::bytes(fields::field(line, 2), &mut log_space);
    answers::print_judged(rt, night_log::judge_log(set, log));
}
