// The table of a set of limits: the one smallest machine that walks exactly the patterns that the set keeps.
// Refuses by 1 to 7 and 21, then by 8 for a work area that is too short and by 9 for a table buffer that is.
#![tactic(auto)]

mod write;

ghost use Rattle.std.specs.Prelude.{◌≡◌, ◌-◌, ◌≤◌, length};
ghost use Rattle.machines.specs.Machine.{Machine};
ghost use Rattle.meaning.specs.Longest.{longest};
ghost use Rattle.meaning.specs.Sets.{SetAllowed};
ghost use Rattle.history.specs.Length.{LongEnough, Histories};
ghost use Rattle.classes.specs.Area.{used, area_size};
ghost use Rattle.builder.specs.Build.{ClearedTo, BuiltAs};
ghost use Rattle.builder.specs.Steps.{Held, BuildsTable};

use layout::Refused;
use meaning::LimitSet;

// Entries of the work area where no window is longer than `widest`: four for each history.
fn area_size(widest: u8) -> usize
    requires { (1 ≤ widest) × (widest ≤ longest) }
    ensures { result ≡ area_size widest }
{
    4 << (widest - 1)
}

// Finds the set's states and numbers them in the work area; returns how many they are. The set and the area are as C
// hands them over, here and below: what is asked of them stays a clause.
fn number_states(set: LimitSet, m: usize, n: usize, work: &mut [u16]) -> usize
    requires { SetAllowed longest set × LongEnough set m × Histories m n × (used n ≤ length work.old) }
    ensures { Held set n work.old work.new result }
{
    classes::classes(set, m, n, work);
    numbering::number(n, work)
}

fn clear(work: &mut [u16], size: usize)
    requires { size ≤ length work.old }
    ensures { ClearedTo size work.old work.new }
{
    work[..size].fill(0);
}

fn build_table(
    set: LimitSet,
    widest: u8,
    work: &mut [u16],
    table: &mut [u8],
) -> Result<usize, Refused>
    requires { (1 ≤ widest) × (widest ≤ longest) × SetAllowed widest set × (area_size widest ≤ length work.old) }
    ensures { (m : Machine) × BuildsTable widest set work.old work.new table.old table.new result m }
{
    let area = area_size(widest);
    let m = history::length_for(set);
    let n = history::count_of(m);
    let count = number_states(set, m, n, work);
    let size = 7 + 4 * count;
    if table.len() < size {
        clear(work, area);
        return Err(Refused::Room { needed: size });
    }
    write::write_table(work, n, count, table);
    clear(work, area);
    Ok(size)
}

// For sets whose windows are at most `widest` jobs, a number as PROMISES names it, so its bound is a clause. The
// library and the printing program differ in this number, and the work area goes by it.
pub fn build_within(
    set: &[u8],
    widest: u8,
    work: &mut [u16],
    table: &mut [u8],
) -> Result<usize, Refused>
    requires { (1 ≤ widest) × (widest ≤ longest) }
    ensures { BuiltAs widest set.now work.old work.new table.old table.new result }
{
    let read = sets::read_set_within(set, widest)?;
    if work.len() < area_size(widest) {
        return Err(Refused::WorkLength);
    }
    build_table(read, widest, work, table)
}

pub fn build(set: &[u8], work: &mut [u16], table: &mut [u8]) -> Result<usize, Refused>
    ensures { BuiltAs longest set.now work.old work.new table.old table.new result }
{
    build_within(set, meaning::LONGEST_WINDOW, work, table)
}
