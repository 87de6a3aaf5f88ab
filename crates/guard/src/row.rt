// A row of guards serves up to 16 jobs on one table: a lent slice of guard records. Each call is for one job number,
// tests 14 first, and is then exactly the call on that job's guard; every other record stays the same.
ghost use Rattle.std.specs.Prelude.{◌≡◌, false, ◌<◌};
ghost use Rattle.guard.specs.Row.{most_guards, outside, InRow, AnewAs, RowStartedAs, RowAskedAs, RowToldAs};

use super::{Answer, Guard};
use layout::Refused;

// The most guards of a row.
pub const MOST_GUARDS: usize = 16;

// Whether a row of so many guards has no guard of that job number. A function of its own, since `asks_refuses` of
// proofs/row/Walk.antt speaks of it.
fn refuses(count: usize, job: usize) -> bool
    ensures { (result ≡ outside count job) × (result ≡ false → (job < count) × (job < most_guards)) }
{
    if count <= job {
        return true;
    }
    MOST_GUARDS < count
}

// Refuses by 14 where a row of so many guards has no guard of that job number.
fn test_job(count: usize, job: usize) -> Result<(), Refused>
    ensures { InRow count job result }
{
    if refuses(count, job) {
        return Err(Refused::Job);
    }
    Ok(())
}

impl Guard {
    // Starts the guard anew; where the table is refused, it stays as it was.
    fn anew(&mut self, table: &[u8]) -> Result<(), Refused>
        ensures { AnewAs table.now self.old result self.new }
    {
        table::check_table(table)?;
        *self = Guard::new();
        Ok(())
    }
}

// Starts one job's guard anew; where the table is refused, its old guard stays.
pub fn start(row: &mut [Guard], job: usize, table: &[u8]) -> Result<(), Refused>
    ensures { RowStartedAs row.old job table.now result row.new }
{
    test_job(row.len(), job)?;
    row[job].anew(table)
}

// Asks one job's guard.
pub fn ask(row: &[Guard], job: usize, table: &[u8]) -> Result<Answer, Refused>
    ensures { RowAskedAs row.now job table.now result }
{
    test_job(row.len(), job)?;
    row[job].says(table)
}

// Tells one job's guard an outcome.
pub fn tell(row: &mut [Guard], job: usize, table: &[u8], outcome: u8) -> Result<(), Refused>
    ensures { RowToldAs row.old job table.now outcome result row.new }
{
    test_job(row.len(), job)?;
    row[job].hear(table, outcome)
}
