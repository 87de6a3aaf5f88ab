// The boundary's carry-over record, and the guard with nothing told.
ghost use Rattle.std.specs.Prelude.{◌≡◌};
ghost use Rattle.meaning.specs.Longest.{longest};
ghost use Rattle.guard.specs.Guard.{fresh};
ghost use Rattle.carry.specs.Bytes.{carried};
ghost use Rattle.carry.specs.Write.{RecordWrittenAs};
ghost use Rattle.carry.specs.Read.{ReadBackAs};
ghost use Rattle.flat.specs.Flat.{FlatAnswer, flat_written, flat_back};

use flat::{FloeStarted, FloeWritten};
use guard::Guard;

pub fn floe_guard_new() -> Guard
    ensures { result ≡ fresh }
{
    Guard::new()
}

pub fn floe_carry_write(guard: Guard, set: &[u8], out: &mut [u8]) -> FloeWritten
    ensures { FlatAnswer (RecordWrittenAs longest carried guard set.now out.old out.new) flat_written result }
{
    carry::write_record(guard, set, out).into()
}

pub fn floe_carry_read(bytes: &[u8], table: &[u8]) -> FloeStarted
    ensures { FlatAnswer (ReadBackAs longest carried bytes.now table.now) flat_back result }
{
    carry::read_record(bytes, table).into()
}
