// The boundary's row: each function says in a flat record what the library function on the lent row answers.
ghost use Rattle.guard.specs.Row.{RowStartedAs, RowAskedAs, RowToldAs};
ghost use Rattle.flat.specs.Flat.{FlatAnswer, flat_start, flat_ask, flat_tell};

use flat::{FloeDone, FloeRowAsked};
use guard::Guard;

pub fn floe_row_start(row: &mut [Guard], job: usize, table: &[u8]) -> FloeDone
    ensures { FlatAnswer (λ a. RowStartedAs row.old job table.now a row.new) flat_start result }
{
    guard::row::start(row, job, table).into()
}

pub fn floe_row_ask(row: &[Guard], job: usize, table: &[u8]) -> FloeRowAsked
    ensures { FlatAnswer (RowAskedAs row.now job table.now) flat_ask result }
{
    guard::row::ask(row, job, table).into()
}

pub fn floe_row_tell(row: &mut [Guard], job: usize, table: &[u8], outcome: u8) -> FloeDone
    ensures { FlatAnswer (λ a. RowToldAs row.old job table.now outcome a row.new) flat_tell result }
{
    guard::row::tell(row, job, table, outcome).into()
}
