// The bytes of a table: its check, and one state's moves for those who walk it.
// Refuses by 10, 11 and 12, in that order.
#![tactic(auto)]

ghost use Rattle.std.specs.Prelude.{◌≡◌, ◌+◌, ◌*◌, ◌≤◌, ◌<◌, length, IfOk};
ghost use Rattle.layout.specs.Refusal.{first};
ghost use Rattle.layout.specs.Refused.{says};
ghost use Rattle.table.specs.Bytes.{pair_at, state_count};
ghost use Rattle.table.specs.Rows.{count_rows, entry_rows, entries_rows};
ghost use Rattle.table.specs.Check.{CheckedAs, miss_by, Shows, LookedAs};

use layout::{HeadFault, Refused};

// The most states that a table may have.
const MOST_STATES: usize = 32768;

// What stands for a next state on a miss that isn't allowed.
pub const NO_MISS: u16 = 65535;

// Where a state's outcomes lead. A hit is always allowed, a miss only where it leads to a state.
#[derive(Clone, Copy, Debug, PartialEq, Eq)]
pub struct Moves {
    pub miss: Option<u16>,
    pub hit: u16,
}

// The big-endian pair of bytes at a place.
fn pair(bytes: &[u8], at: usize) -> u16
    requires { at + 1 < length bytes.now }
    ensures { result ≡ pair_at bytes.now at }
{
    u16::from_be_bytes([bytes[at], bytes[at + 1]])
}

// Where a miss leads by its pair of bytes.
fn miss_of(entry: u16) -> Option<u16>
    ensures { result ≡ miss_by entry }
{
    if entry == NO_MISS {
        return None;
    }
    Some(entry)
}

// The entries of a table whose counts were tested.
#[derive(Clone, Copy)]
struct Entries<'a> {
    bytes: &'a [u8],
    states: usize,
    ghost counted: { states ≡ state_count bytes.now },
    ghost within: { 7 + 4 * states ≤ length bytes.now },
}

impl<'a> Entries<'a> {
    // Tests 10, 11 and the counts in 12.
    fn of(bytes: &'a [u8]) -> Result<Entries<'a>, Refused>
        ensures { (says result ≡ first (count_rows bytes.now)) × IfOk result (λ entries. entries.bytes.now ≡ bytes.now) }
    {
        match layout::check_head(bytes, 7, 1) {
            Err(HeadFault::Length) => return Err(Refused::TableLength),
            Err(HeadFault::Version) => return Err(Refused::TableVersion),
            Ok(()) => {}
        }
        let rest = layout::length_field(bytes);
        let states = pair(bytes, 5) as usize;
        if states == 0 {
            return Err(Refused::States);
        }
        if MOST_STATES < states {
            return Err(Refused::States);
        }
        if rest != 3 + 4 * states {
            return Err(Refused::States);
        }
        Ok(Entries { bytes, states })
    }

    // The moves of one state, tested.
    fn moves(self, state: usize) -> Result<Moves, Refused>
        requires { state < self.states }
        ensures { (says result ≡ first (entry_rows self.entry.bytes.now state)) × Shows self.entry.bytes.now state result }
    {
        let miss = miss_of(pair(self.bytes, 7 + 4 * state));
        let hit = pair(self.bytes, 9 + 4 * state);
        if let Some(next) = miss {
            if self.states <= next as usize {
                return Err(Refused::States);
            }
        }
        if self.states <= hit as usize {
            return Err(Refused::States);
        }
        Ok(Moves { miss, hit })
    }

    // The entries of all states, first to last.
    fn test(self) -> Result<(), Refused>
        ensures { says result ≡ first (entries_rows self.entry.bytes.now 0 self.entry.states) }
    {
        for state in 0..self.states {
            self.moves(state)?;
        }
        Ok(())
    }
}

// The whole table, tested in one pass; else the count of its states.
pub fn check_table(bytes: &[u8]) -> Result<usize, Refused>
    ensures { CheckedAs bytes.now result }
{
    let entries = Entries::of(bytes)?;
    entries.test()?;
    Ok(entries.states)
}

// The moves of one state, with a test of the counts and of that state's entry only.
pub fn look(bytes: &[u8], state: u16) -> Result<Moves, Refused>
    ensures { LookedAs bytes.now state result }
{
    let entries = Entries::of(bytes)?;
    let state = state as usize;
    if entries.states <= state {
        return Err(Refused::States);
    }
    entries.moves(state)
}
