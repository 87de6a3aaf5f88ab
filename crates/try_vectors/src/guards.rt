// Guards driven by actions, one with nothing told and one made by hand.
// A guard by hand is four fields of a line, from field 2 on: its state, 1 if it is lost, its outcomes, its count.
use crate::{actions, fields};
use guard::{Guard, HELD};

// A field's outcomes as a guard holds them, misses where there are fewer.
fn held(field: &[u8]) -> [bool; HELD] {
    let mut outcomes = [false; HELD];
    for (hit, digit) in outcomes.iter_mut().zip(field) {
        *hit = *digit == b'1';
    }
    outcomes
}

pub(crate) fn by_hand(line: &[u8]) -> Guard {
    Guard {
        state: fields::wide_number(fields::field(line, 2)),
        lost: matches!(fields::field(line, 3), [b'1', ..]),
        outcomes: held(fields::field(line, 4)),
        count: fields::long_number(fields::field(line, 5)) as u64,
    }
}

pub(crate) fn try_new(rt: &impl Print, line: &[u8]) {
    actions::drive_on(
        rt,
        Guard::new(),
        b"",
        fields::field(line, 1),
        fields::field(line, 2),
    );
}

pub(crate) fn try_by_hand(rt: &impl Print, line: &[u8]) {
    actions::drive_on(
        rt,
        by_hand(line),
        b"",
        fields::field(line, 1),
        fields::field(line, 6),
    );
}
