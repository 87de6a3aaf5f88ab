// A guard walks a table as outcomes are told, and says before each job whether a miss is still allowed.
// Starting refuses by 10 to 12; ask and tell by 10, 11 and what of 12 concerns the guard's state, tell then by 13 and 17.
// The row's calls refuse by 14 first.
#![tactic(auto)]

ghost use Rattle.std.specs.Prelude.{◌≡◌, false, [], ◌∷◌, ◌+◌, ◌<◌, Ok};
ghost use Rattle.table.specs.Check.{move_by};
ghost use Rattle.guard.specs.Guard.{most_told, standing, fresh, StartedAs, StandingBy, AskedAs, latest, lost_in, after_by, ToldAs};

pub mod row;

use layout::Refused;
use table::Moves;

// How many outcomes a guard holds: one less than the longest window. `carry`, which sees both, proves that they agree.
pub const HELD: usize = 15;

// The largest count of outcomes told.
const MOST_TOLD: u64 = 18446744073709551615;

// A guard goes in by value and comes back beside the answer, as RULES has it. Its outcomes are the last ones told,
// oldest first, hits where fewer were told; the count is of all of them.
#[repr(C)]
#[derive(Clone, Copy, Debug, PartialEq, Eq)]
pub struct Guard {
    pub state: u16,
    pub lost: bool,
    pub outcomes: [bool; HELD],
    pub count: u64,
}

// What a guard says before a job: a miss is still allowed, or it isn't, or the guard is lost.
#[derive(Clone, Copy, Debug, PartialEq, Eq)]
pub enum Answer {
    Normal,
    Panic,
    Lost,
}

// The outcomes held with a new one as the newest, without the oldest. Each takes the place before it, and the new one
// follows: a loop that only copied would be made a copy in memory, and a tell would wait for it.
fn latest_of(outcomes: [bool; HELD], hit: bool) -> [bool; HELD]
    ensures { result ≡ latest outcomes (hit ∷ []) }
{
    let mut after = outcomes;
    after[0] = hit;
    for i in 0..HELD - 1 {
        after[i] = outcomes[i + 1];
        after[i + 1] = hit;
    }
    after
}

impl Guard {
    // A guard with nothing told.
    pub fn new() -> Guard
        ensures { result ≡ fresh }
    {
        Guard {
            state: 0,
            lost: false,
            outcomes: [true; HELD],
            count: 0,
        }
    }

    // A guard with nothing told, beside whether the bytes are a table.
    pub fn start(table: &[u8]) -> (Result<(), Refused>, Guard)
        ensures { StartedAs table.now result.0 result.1 }
    {
        match table::check_table(table) {
            Ok(_) => (Ok(()), Guard::new()),
            Err(refused) => (Err(refused), Guard::new()),
        }
    }

    // What the moves of its state let a guard answer.
    fn answer(&self, moves: Moves) -> Answer
        ensures { StandingBy (move_by moves false) self.now (Ok result) }
    {
        if self.lost {
            return Answer::Lost;
        }
        match moves.miss {
            Some(_) => Answer::Normal,
            None => Answer::Panic,
        }
    }

    // The guard that goes to a state with an outcome told. That one more can be counted stays a clause, here and below:
    // a guard is C's record, and may hold any count.
    fn to(&self, state: u16, hit: bool) -> Guard
        requires { self.now.count < most_told }
        ensures { result ≡ standing state (latest self.now.outcomes (hit ∷ [])) (self.now.count + 1) }
    {
        Guard {
            state,
            lost: false,
            outcomes: latest_of(self.outcomes, hit),
            count: self.count + 1,
        }
    }

    // The guard lost where it stands, with an outcome counted. Field by field, since a copy of the whole takes the
    // bytes between the fields along.
    fn to_lost(&self) -> Guard
        requires { self.now.count < most_told }
        ensures { result ≡ lost_in self.now.state self.now.outcomes (self.now.count + 1) }
    {
        Guard {
            state: self.state,
            lost: true,
            outcomes: self.outcomes,
            count: self.count + 1,
        }
    }

    // Where the moves of its state lead a guard that is told an outcome.
    fn moved(&self, moves: Moves, hit: bool) -> Guard
        requires { self.now.count < most_told }
        ensures { result ≡ after_by (move_by moves hit) self.now hit }
    {
        if self.lost {
            return self.to_lost();
        }
        let next = if hit { Some(moves.hit) } else { moves.miss };
        match next {
            Some(state) => self.to(state, hit),
            None => self.to_lost(),
        }
    }

    // What a guard that is only looked at says before a job.
    fn says(&self, table: &[u8]) -> Result<Answer, Refused>
        ensures { AskedAs table.now self.now result self.now }
    {
        let moves = table::look(table, self.state)?;
        Ok(self.answer(moves))
    }

    // Tells a guard where it lies. A refused outcome leaves it as it was.
    fn hear(&mut self, table: &[u8], outcome: u8) -> Result<(), Refused>
        ensures { ToldAs table.now self.old outcome result self.new }
    {
        let moves = table::look(table, self.state)?;
        if 1 < outcome {
            return Err(Refused::Outcome { place: 0 });
        }
        if MOST_TOLD <= self.count {
            return Err(Refused::Count);
        }
        *self = self.moved(moves, outcome != 0);
        Ok(())
    }

    // Before a job: whether a miss is still allowed; the guard comes back as it was.
    pub fn ask(self, table: &[u8]) -> (Result<Answer, Refused>, Guard)
        ensures { AskedAs table.now self result.0 result.1 }
    {
        (self.says(table), self)
    }

    // After a job: its outcome, 1 for a hit and 0 for a miss. A refused tell gives the guard back as it was.
    pub fn tell(self, table: &[u8], outcome: u8) -> (Result<(), Refused>, Guard)
        ensures { ToldAs table.now self outcome result.0 result.1 }
    {
        let mut guard = self;
        let answer = guard.hear(table, outcome);
        (answer, guard)
    }
}
