// The row, for C.
ghost use Rattle.guard.specs.Row.{RowStartedAs, RowAskedAs, RowToldAs};
ghost use Rattle.flat.specs.Flat.{FlatAnswer, flat_start, flat_ask, flat_tell};

use flat::{FloeDone, FloeRowAsked};
use guard::Guard;

#[unsafe(no_mangle)]
pub extern "C" fn floe_row_start(row: &mut [Guard], job: usize, table: &[u8]) -> FloeDone
    ensures { FlatAnswer (λ a. RowStartedAs row.old job table.now a row.new) flat_start result }
{
    floelinnet::floe_row_start(row, job, table)
}

#[unsafe(no_mangle)]
pub extern "C" fn floe_row_ask(row: &[Guard], job: usize, table: &[u8]) -> FloeRowAsked
    ensures { FlatAnswer (RowAskedAs row.now job table.now) flat_ask result }
{
    floelinnet::floe_row_ask(row, job, table)
}

#[unsafe(no_mangle)]
pub extern "C" fn floe_row_tell(
    row: &mut [Guard],
    job: usize,
    table: &[u8],
    outcome: u8,
) -> FloeDone
    ensures { FlatAnswer (λ a. RowToldAs row.old job table.now outcome a row.new) flat_tell result }
{
    floelinnet::floe_row_tell(row, job, table, outcome)
}
