// Carry-over records written and read back, and guards driven through changes of the battery, as a vector's fields give them.
// A buffer holds EE throughout before a record is written; it is shown whole afterwards, with the byte past its end.
use crate::{actions, answers, fields, guards, tables, text};
use guard::Guard;

pub(crate) fn try_write(rt: &impl Print, line: &[u8]) {
    let mut space = [0u8; 64];
    let mut out = [0xEEu8; 65];
    let set = fields::bytes(fields::field(line, 1), &mut space);
    let size = fields::size(fields::field(line, 6));
    let guard = guards::by_hand(line);
    answers::print_written(rt, carry::write_record(guard, set, &mut out[..size]));
    text::print_buffer(rt, &out[..size + 1]);
}

pub(crate) fn try_read(rt: &impl Print, line: &[u8]) {
    let mut record_space = [0u8; 320];
    let mut table_space = tables::zeros();
    let record = fields::bytes(fields::field(line, 1), &mut record_space);
    let table = tables::put(fields::field(line, 2), &mut table_space);
    let guard = actions::read_back(rt, record, table);
    text::print(rt, ", ");
    actions::drive(rt, guard, b"", table, fields::field(line, 3));
}

pub(crate) fn try_changes(rt: &impl Print, line: &[u8]) {
    let mut space = [0u8; 64];
    let set = fields::bytes(fields::field(line, 1), &mut space);
    actions::drive_on(
        rt,
        Guard::new(),
        set,
        fields::field(line, 2),
        fields::field(line, 3),
    );
}
