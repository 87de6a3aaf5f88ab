// What C calls: each function of `floelinnet` under its own name and with its clauses. include/floelinnet.h declares them.
// They are there twice since Rattle can't call what is exported, and the theorems speak of `floelinnet`'s.
#![tactic(auto)]

ghost use Rattle.std.specs.Prelude.{◌≡◌};
ghost use Rattle.meaning.specs.Longest.{longest};
ghost use Rattle.sets.specs.Read.{ReadAs};
ghost use Rattle.sets.specs.Write.{WrittenAs};
ghost use Rattle.verdict.specs.Judge.{JudgedAs};
ghost use Rattle.compare.specs.Compare.{ComparedAs};
ghost use Rattle.builder.specs.Build.{BuiltAs};
ghost use Rattle.table.specs.Check.{CheckedAs};
ghost use Rattle.guard.specs.Guard.{StartedAs, AskedAs, ToldAs};
ghost use Rattle.flat.specs.Flat.{FlatAnswer, flat_set, flat_written, flat_verdict, flat_comparison, flat_built, flat_checked, flat_started, flat_asked, flat_told};

use flat::{
    FloeAsked, FloeBuilt, FloeChecked, FloeComparison, FloeSetRead, FloeStarted, FloeTold,
    FloeVerdict, FloeWritten,
};
use guard::Guard;
use meaning::LimitSet;

mod carries;
mod log;
mod row;

#[unsafe(no_mangle)]
pub extern "C" fn floe_read_set(set: &[u8]) -> FloeSetRead
    ensures { FlatAnswer (ReadAs longest set.now) flat_set result }
{
    floelinnet::floe_read_set(set)
}

#[unsafe(no_mangle)]
pub extern "C" fn floe_write_set(set: LimitSet, bytes: &mut [u8]) -> FloeWritten
    ensures { FlatAnswer (WrittenAs longest set bytes.old bytes.new) flat_written result }
{
    floelinnet::floe_write_set(set, bytes)
}

#[unsafe(no_mangle)]
pub extern "C" fn floe_judge(set: &[u8], pattern: &[u8]) -> FloeVerdict
    ensures { FlatAnswer (JudgedAs longest set.now pattern.now) flat_verdict result }
{
    floelinnet::floe_judge(set, pattern)
}

#[unsafe(no_mangle)]
pub extern "C" fn floe_compare(first: &[u8], second: &[u8]) -> FloeComparison
    ensures { FlatAnswer (ComparedAs longest first.now second.now) flat_comparison result }
{
    floelinnet::floe_compare(first, second)
}

#[unsafe(no_mangle)]
pub extern "C" fn floe_build(set: &[u8], work: &mut [u16], table: &mut [u8]) -> FloeBuilt
    ensures { FlatAnswer (BuiltAs longest set.now work.old work.new table.old table.new) flat_built result }
{
    floelinnet::floe_build(set, work, table)
}

#[unsafe(no_mangle)]
pub extern "C" fn floe_check_table(table: &[u8]) -> FloeChecked
    ensures { FlatAnswer (CheckedAs table.now) flat_checked result }
{
    floelinnet::floe_check_table(table)
}

#[unsafe(no_mangle)]
pub extern "C" fn floe_guard_start(table: &[u8]) -> FloeStarted
    ensures { FlatAnswer (λ a. StartedAs table.now a.0 a.1) flat_started result }
{
    floelinnet::floe_guard_start(table)
}

#[unsafe(no_mangle)]
pub extern "C" fn floe_guard_ask(guard: Guard, table: &[u8]) -> FloeAsked
    ensures { FlatAnswer (λ a. AskedAs table.now guard a.0 a.1) flat_asked result }
{
    floelinnet::floe_guard_ask(guard, table)
}

#[unsafe(no_mangle)]
pub extern "C" fn floe_guard_tell(guard: Guard, table: &[u8], outcome: u8) -> FloeTold
    ensures { FlatAnswer (λ a. ToldAs table.now guard outcome a.0 a.1) flat_told result }
{
    floelinnet::floe_guard_tell(guard, table, outcome)
}
