// The C boundary: each function says in a flat record what the library function behind it answers.
// The records and what they say are `flat`'s. `floelinnet_c` exports each function for C.
#![tactic(auto)]

ghost use Rattle.std.specs.Prelude.{◌≡◌};
ghost use Rattle.meaning.specs.Longest.{longest};
ghost use Rattle.sets.specs.Read.{ReadAs};
ghost use Rattle.sets.specs.Write.{WrittenAs};
ghost use Rattle.verdict.specs.Judge.{JudgedAs};
ghost use Rattle.compare.specs.Compare.{ComparedAs};
ghost use Rattle.builder.specs.Build.{BuiltAs};
ghost use Rattle.table.specs.Check.{CheckedAs};
ghost use Rattle.guard.specs.Guard.{StartedAs, AskedAs, ToldAs};
ghost use Rattle.flat.specs.Flat.{FlatAnswer, flat_set, flat_written, flat_verdict, flat_comparison, flat_built, flat_checked, flat_started, flat_asked, flat_told};

use flat::{
    FloeAsked, FloeBuilt, FloeChecked, FloeComparison, FloeSetRead, FloeStarted, FloeTold,
    FloeVerdict, FloeWritten,
};
use guard::Guard;
use meaning::LimitSet;

mod carries;
mod log;
mod row;

pub use carries::{floe_carry_read, floe_carry_write, floe_guard_new};
pub use log::{floe_log_judge, floe_log_next, floe_log_open, floe_log_write};
pub use row::{floe_row_ask, floe_row_start, floe_row_tell};

pub fn floe_read_set(set: &[u8]) -> FloeSetRead
    ensures { FlatAnswer (ReadAs longest set.now) flat_set result }
{
    sets::read_set(set).into()
}

pub fn floe_write_set(set: LimitSet, bytes: &mut [u8]) -> FloeWritten
    ensures { FlatAnswer (WrittenAs longest set bytes.old bytes.new) flat_written result }
{
    sets::write_set(set, bytes).into()
}

pub fn floe_judge(set: &[u8], pattern: &[u8]) -> FloeVerdict
    ensures { FlatAnswer (JudgedAs longest set.now pattern.now) flat_verdict result }
{
    verdict::judge(set, pattern).into()
}

pub fn floe_compare(first: &[u8], second: &[u8]) -> FloeComparison
    ensures { FlatAnswer (ComparedAs longest first.now second.now) flat_comparison result }
{
    compare::compare(first, second).into()
}

pub fn floe_build(set: &[u8], work: &mut [u16], table: &mut [u8]) -> FloeBuilt
    ensures { FlatAnswer (BuiltAs longest set.now work.old work.new table.old table.new) flat_built result }
{
    builder::build(set, work, table).into()
}

pub fn floe_check_table(table: &[u8]) -> FloeChecked
    ensures { FlatAnswer (CheckedAs table.now) flat_checked result }
{
    table::check_table(table).into()
}

pub fn floe_guard_start(table: &[u8]) -> FloeStarted
    ensures { FlatAnswer (λ a. StartedAs table.now a.0 a.1) flat_started result }
{
    Guard::start(table).into()
}

pub fn floe_guard_ask(guard: Guard, table: &[u8]) -> FloeAsked
    ensures { FlatAnswer (λ a. AskedAs table.now guard a.0 a.1) flat_asked result }
{
    let (answer, _) = guard.ask(table);
    // Asking changes nothing. A copy of the whole record would be read across what the caller has just stored.
    let outcomes = guard.outcomes;
    let same = Guard {
        state: guard.state,
        lost: guard.lost,
        outcomes,
        count: guard.count,
    };
    (answer, same).into()
}

pub fn floe_guard_tell(guard: Guard, table: &[u8], outcome: u8) -> FloeTold
    ensures { FlatAnswer (λ a. ToldAs table.now guard outcome a.0 a.1) flat_told result }
{
    guard.tell(table, outcome).into()
}
