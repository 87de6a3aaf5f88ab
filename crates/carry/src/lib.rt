// The carry-over record: a guard as it is stored while it is switched off, beside the set whose table it walks.
// Writing refuses by 1 to 7, 21 and then by 9; reading back by 18, 1 to 7, 21, 20, 13, 19, 10 to 12 and then by 25.
// Records of the version before, with fewer outcomes, are still read.
#![tactic(auto)]

ghost use Rattle.std.specs.Prelude.{◌≡◌, ◌≤◌, IfOk};
ghost use Rattle.layout.specs.Refusal.{first};
ghost use Rattle.layout.specs.Refused.{says};
ghost use Rattle.layout.specs.Head.{head_rows};
ghost use Rattle.meaning.specs.Longest.{longest};
ghost use Rattle.guard.specs.Told.{told_all};
ghost use Rattle.carry.specs.Bytes.{carried, is_old, around_set, Begins};
ghost use Rattle.carry.specs.Rows.{version_rows};
ghost use Rattle.carry.specs.Read.{ReadInVersion, ReadBackAs};

mod write;

use guard::{Guard, HELD};
use layout::Refused;
pub use write::write_record;

// A version of records, and how many outcomes each of them has.
#[derive(Clone, Copy)]
struct Version {
    number: u8,
    held: usize,
    ghost few: { held ≤ carried },
}

// The version that is written: as many outcomes as a guard holds.
const NEW: Version = Version {
    number: 2,
    held: HELD,
};

// The version before.
const OLD: Version = Version {
    number: 1,
    held: 11,
};

// What stands after a record's outcomes: the count and the lost byte.
const AFTER: usize = 9;

// Tests 18, of a version whose records have so many outcomes, and says where they begin.
fn test_head(bytes: &[u8], version: Version) -> Result<usize, Refused>
    ensures tested { says result ≡ first (head_rows (around_set version.held) version.number 18 18 bytes.now) }
    ensures begins { IfOk result (Begins version.held bytes.now) }
{
    let tail = version.held + AFTER;
    if layout::check_head(bytes, 5 + tail, version.number).is_err() {
        return Err(Refused::Record);
    }
    Ok(bytes.len() - tail)
}

// Tests 18, 1 to 7, 21, 20, 13 and 19, and says where the outcomes begin. They and a job more fill a window of as many
// jobs, so a set is too wide for them where it isn't taken with that as the longest window.
fn test_record(bytes: &[u8], version: Version) -> Result<usize, Refused>
    ensures tested { says result ≡ first (version_rows longest version.number version.held bytes.now) }
    ensures begins { IfOk result (Begins version.held bytes.now) }
{
    let end = test_head(bytes, version)?;
    let set = &bytes[5..end];
    sets::read_set(set)?;
    if sets::read_set_within(set, (version.held + 1) as u8).is_err() {
        return Err(Refused::OldRecord);
    }
    let past = end + version.held;
    if let Some(place) = patterns::first_bad(&bytes[end..past]) {
        return Err(Refused::Outcome { place });
    }
    if 1 < bytes[past + 8] {
        return Err(Refused::LostByte);
    }
    Ok(end)
}

// Tells a guard outcomes one after the other.
fn tell_all(guard: &mut Guard, table: &[u8], outcomes: &[u8])
    ensures { guard.new ≡ told_all table.now guard.old outcomes.now }
{
    for byte in outcomes {
        (_, *guard) = guard.tell(table, *byte);
    }
}

// The guard that a record has, in the state where its outcomes lead on a table: a start and a step for each outcome that
// a guard holds. Those that the record doesn't have are hits.
fn read_version(bytes: &[u8], version: Version, table: &[u8]) -> Result<Guard, Refused>
    ensures { ReadInVersion longest carried version.number version.held bytes.now table.now result }
{
    let end = test_record(bytes, version)?;
    let past = end + version.held;
    let (started, mut walked) = Guard::start(table);
    started?;
    let hits = [1u8; HELD];
    tell_all(&mut walked, table, &hits[version.held..]);
    tell_all(&mut walked, table, &bytes[end..past]);
    if walked.lost {
        return Err(Refused::Walk);
    }
    Ok(Guard {
        lost: bytes[past + 8] != 0,
        count: layout::eight_at(bytes, past),
        ..walked
    })
}

// Whether a record says that it is of the version before.
fn is_old(bytes: &[u8]) -> bool
    ensures { result ≡ is_old bytes.now }
{
    4 < bytes.len() && bytes[4] == OLD.number
}

// Reads a record of either version back on a table.
pub fn read_record(bytes: &[u8], table: &[u8]) -> Result<Guard, Refused>
    ensures { ReadBackAs longest carried bytes.now table.now result }
{
    if is_old(bytes) {
        return read_version(bytes, OLD, table);
    }
    read_version(bytes, NEW, table)
}
