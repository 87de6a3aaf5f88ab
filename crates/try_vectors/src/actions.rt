// One guard driven by a field of actions, one character each: `s` start, `a` ask, a digit or `x` tell, `b` a change of the battery.
// The answer to each is printed in turn, and at the end the guard as it then stands.
use crate::{answers, tables, text};
use guard::Guard;

// The outcome byte that an action tells; no digit stands for 255, so `x` does.
fn outcome(action: u8) -> u8 {
    match action {
        b'x' => 255,
        b'0'.. => action - b'0',
        _ => 0,
    }
}

// The guard that a record gives on a table, or that a refusal leaves.
pub(crate) fn read_back(rt: &impl Print, record: &[u8], table: &[u8]) -> Guard {
    match carry::read_record(record, table) {
        Ok(guard) => {
            text::print(rt, "carried");
            guard
        }
        Err(refused) => {
            text::print_refusal(rt, refused);
            Guard::new()
        }
    }
}

// A guard written with a set and read back on a table. Where writing is refused, it stays.
fn change(rt: &impl Print, guard: Guard, set: &[u8], table: &[u8]) -> Guard {
    let mut record = [0u8; 64];
    match carry::write_record(guard, set, &mut record) {
        Ok(size) => read_back(rt, &record[..size.min(64)], table),
        Err(refused) => {
            text::print_refusal(rt, refused);
            guard
        }
    }
}

fn act(rt: &impl Print, guard: Guard, set: &[u8], table: &[u8], action: u8) -> Guard {
    match action {
        b's' => {
            let (answer, guard) = Guard::start(table);
            answers::print_done(rt, answer, "started");
            guard
        }
        b'a' => {
            let (answer, guard) = guard.ask(table);
            answers::print_asked(rt, answer);
            guard
        }
        b'b' => change(rt, guard, set, table),
        _ => {
            let (answer, guard) = guard.tell(table, outcome(action));
            answers::print_done(rt, answer, "told");
            guard
        }
    }
}

pub(crate) fn drive(rt: &impl Print, guard: Guard, set: &[u8], table: &[u8], actions: &[u8]) {
    let mut guard = guard;
    for &action in actions {
        if action == b'-' {
            break;
        }
        guard = act(rt, guard, set, table, action);
        text::print(rt, ", ");
    }
    answers::print_guard(rt, guard);
}

// The same on the table that a field gives.
pub(crate) fn drive_on(
    rt: &impl Print,
    guard: Guard,
    set: &[u8],
    table_field: &[u8],
    actions: &[u8],
) {
    let mut space = tables::zeros();
    let table = tables::put(table_field, &mut space);
    drive(rt, guard, set, table, actions);
}
