// The table that a vector's field gives, and the check of it.
// A field holds a table's bytes or, since a line is too short for the largest, `z` and n in four digits: n states that all lead to state 0.
ghost use Rattle.std.specs.Prelude.{◌≡◌, ◌≤◌, length};

use crate::{answers, fields};

// Zeros, as many as a table has bytes that has a state more than is allowed.
pub(crate) fn zeros() -> [u8; 131083]
    ensures { 131083 ≡ length result }
{
    [0; 131083]
}

// The table of n states at the start of `out`; its entries are the zeros that are there.
fn put_alike(n: u16, out: &mut [u8]) -> &[u8]
    ensures { length result.now ≤ length out.old }
{
    let rest = 3 + 4 * (n as usize);
    if out.len() < 4 + rest {
        return &[];
    }
    layout::put_four(out, 0, rest);
    out[4] = 1;
    out[5..7].copy_from_slice(&n.to_be_bytes());
    &out[..4 + rest]
}

// Puts the table at the start of `out`, which holds zeros, and gives it.
pub(crate) fn put<'a>(field: &[u8], out: &'a mut [u8]) -> &'a [u8]
    ensures { length result.now ≤ length out.old }
{
    match field {
        [b'z', count @ ..] => put_alike(fields::wide_number(count), out),
        _ => fields::bytes(field, out),
    }
}

pub(crate) fn try_check(rt: &impl Print, line: &[u8]) {
    let mut space = zeros();
    let table = put(fields::field(line, 1), &mut space);
    answers::print_checked(rt, table::check_table(table));
}
