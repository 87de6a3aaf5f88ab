// Each answer of the library as a flat record, for C and Rust: what the functions of `floelinnet` return, which C calls
// through `floelinnet_c`. Every record begins with the number of the refusal, 0 for none, and what the rules return
// beside it. Answers are numbers here, and some records differ in a name alone, since C has them so.
#![tactic(auto)]

ghost use Rattle.std.specs.Prelude.{◌≡◌};
ghost use Rattle.flat.specs.Flat.{numbers_of, flat_set, flat_written, flat_verdict, flat_comparison, flat_built, flat_checked, flat_start, flat_started, flat_back, flat_ask, flat_asked, flat_told, flat_opened, flat_log_read};

use compare::{Pattern, RefusedSet};
use guard::{Answer, Guard};
use layout::Refused;
use meaning::LimitSet;
use verdict::Loss;

#[repr(C)]
#[derive(Clone, Copy)]
pub struct FloeSetRead {
    pub refused: u64,
    pub at: u64,
    pub set: LimitSet,
}

#[repr(C)]
#[derive(Clone, Copy)]
pub struct FloeWritten {
    pub refused: u64,
    pub at: u64,
    pub length: u64,
}

// kept: 1 or 0, and 0 on a refusal. first: where to look, 0 where nothing is lost.
#[repr(C)]
#[derive(Clone, Copy)]
pub struct FloeVerdict {
    pub refused: u64,
    pub at: u64,
    pub kept: u64,
    pub job: u64,
    pub limit: u64,
    pub first: i64,
}

// which: the set that is refused, 1 or 2, else 0. Places of the pattern past its length are 0.
#[repr(C)]
#[derive(Clone, Copy)]
pub struct FloeComparison {
    pub refused: u64,
    pub at: u64,
    pub which: u64,
    pub covers: u64,
    pub length: u64,
    pub pattern: [u8; 16],
}

#[repr(C)]
#[derive(Clone, Copy)]
pub struct FloeBuilt {
    pub refused: u64,
    pub at: u64,
    pub length: u64,
}

#[repr(C)]
#[derive(Clone, Copy)]
pub struct FloeChecked {
    pub refused: u64,
    pub at: u64,
    pub states: u64,
}

#[repr(C)]
#[derive(Clone, Copy)]
pub struct FloeStarted {
    pub refused: u64,
    pub at: u64,
    pub guard: Guard,
}

// answer: 0 normal, 1 panic, 2 lost, 3 refused.
#[repr(C)]
#[derive(Clone, Copy)]
pub struct FloeAsked {
    pub refused: u64,
    pub at: u64,
    pub answer: u64,
    pub guard: Guard,
}

#[repr(C)]
#[derive(Clone, Copy)]
pub struct FloeTold {
    pub refused: u64,
    pub at: u64,
    pub guard: Guard,
}

#[repr(C)]
#[derive(Clone, Copy)]
pub struct FloeDone {
    pub refused: u64,
    pub at: u64,
}

// answer: 0 normal, 1 panic, 2 lost, 3 refused.
#[repr(C)]
#[derive(Clone, Copy)]
pub struct FloeRowAsked {
    pub refused: u64,
    pub at: u64,
    pub answer: u64,
}

#[repr(C)]
#[derive(Clone, Copy)]
pub struct FloeLogOpened {
    pub refused: u64,
    pub at: u64,
    pub place: u64,
}

// answer: 0 miss, 1 hit, 2 end, 3 refused. place: where the reader then stands.
#[repr(C)]
#[derive(Clone, Copy)]
pub struct FloeLogRead {
    pub refused: u64,
    pub at: u64,
    pub answer: u64,
    pub place: u64,
}

// The number of a refusal and the value beside it, 0 and 0 where nothing is refused.
fn numbers<T>(answer: &Result<T, Refused>) -> (u64, u64)
    ensures { result ≡ numbers_of answer.now }
{
    match answer {
        Ok(_) => (0, 0),
        Err(why) => (why.number() as u64, why.at() as u64),
    }
}

// A refused set is the empty one.
impl From<Result<LimitSet, Refused>> for FloeSetRead {
    ghost from_gives = { λ read r. r ≡ flat_set read };

    fn from(read: Result<LimitSet, Refused>) -> FloeSetRead {
        let (refused, at) = numbers(&read);
        FloeSetRead {
            refused,
            at,
            set: read.unwrap_or_default(),
        }
    }
}

impl From<Result<usize, Refused>> for FloeWritten {
    ghost from_gives = { λ written r. r ≡ flat_written written };

    fn from(written: Result<usize, Refused>) -> FloeWritten {
        let (refused, at) = numbers(&written);
        FloeWritten {
            refused,
            at,
            length: written.unwrap_or(0) as u64,
        }
    }
}

impl From<Result<Option<Loss>, Refused>> for FloeVerdict {
    ghost from_gives = { λ judged r. r ≡ flat_verdict judged };

    fn from(judged: Result<Option<Loss>, Refused>) -> FloeVerdict {
        let (refused, at) = numbers(&judged);
        match judged {
            Ok(None) => FloeVerdict {
                refused,
                at,
                kept: 1,
                job: 0,
                limit: 0,
                first: 0,
            },
            Ok(Some(Loss { job, limit, first })) => FloeVerdict {
                refused,
                at,
                kept: 0,
                job,
                limit: limit as u64,
                first,
            },
            Err(_) => FloeVerdict {
                refused,
                at,
                kept: 0, // what wasn't judged isn't kept
                job: 0,
                limit: 0,
                first: 0,
            },
        }
    }
}

impl From<Result<Option<Pattern>, RefusedSet>> for FloeComparison {
    ghost from_gives = { λ compared r. r ≡ flat_comparison compared };

    fn from(compared: Result<Option<Pattern>, RefusedSet>) -> FloeComparison {
        match compared {
            Ok(None) => FloeComparison {
                refused: 0,
                at: 0,
                which: 0,
                covers: 1,
                length: 0,
                pattern: [0; 16],
            },
            Ok(Some(between)) => {
                let pattern = between.outcomes;
                FloeComparison {
                    refused: 0,
                    at: 0,
                    which: 0,
                    covers: 0,
                    length: between.length as u64,
                    pattern,
                }
            }
            Err(set) => FloeComparison {
                refused: set.why().number() as u64,
                at: set.why().at() as u64,
                which: set.which() as u64,
                covers: 0, // what wasn't compared isn't covered
                length: 0,
                pattern: [0; 16],
            },
        }
    }
}

impl From<Result<usize, Refused>> for FloeBuilt {
    ghost from_gives = { λ built r. r ≡ flat_built built };

    fn from(built: Result<usize, Refused>) -> FloeBuilt {
        let (refused, at) = numbers(&built);
        FloeBuilt {
            refused,
            at,
            length: built.unwrap_or(0) as u64,
        }
    }
}

impl From<Result<usize, Refused>> for FloeChecked {
    ghost from_gives = { λ checked r. r ≡ flat_checked checked };

    fn from(checked: Result<usize, Refused>) -> FloeChecked {
        let (refused, at) = numbers(&checked);
        FloeChecked {
            refused,
            at,
            states: checked.unwrap_or(0) as u64,
        }
    }
}

impl From<Result<(), Refused>> for FloeDone {
    ghost from_gives = { λ done r. r ≡ flat_start done };

    fn from(done: Result<(), Refused>) -> FloeDone {
        let (refused, at) = numbers(&done);
        FloeDone { refused, at }
    }
}

// What a start says, and the guard beside it.
impl From<(Result<(), Refused>, Guard)> for FloeStarted {
    ghost from_gives = { λ started r. r ≡ flat_started started };

    fn from(started: (Result<(), Refused>, Guard)) -> FloeStarted {
        let (answer, guard) = started;
        let said = FloeDone::from(answer);
        FloeStarted {
            refused: said.refused,
            at: said.at,
            guard,
        }
    }
}

// A guard that was read back. Beside a refusal stands one with nothing told.
impl From<Result<Guard, Refused>> for FloeStarted {
    ghost from_gives = { λ back r. r ≡ flat_back back };

    fn from(back: Result<Guard, Refused>) -> FloeStarted {
        let (refused, at) = numbers(&back);
        FloeStarted {
            refused,
            at,
            guard: back.unwrap_or(Guard::new()),
        }
    }
}

impl From<Result<Answer, Refused>> for FloeRowAsked {
    ghost from_gives = { λ asked r. r ≡ flat_ask asked };

    fn from(asked: Result<Answer, Refused>) -> FloeRowAsked {
        let (refused, at) = numbers(&asked);
        let answer = match asked {
            Ok(Answer::Normal) => 0,
            Ok(Answer::Panic) => 1,
            Ok(Answer::Lost) => 2,
            Err(_) => 3, // what is refused isn't normal
        };
        FloeRowAsked {
            refused,
            at,
            answer,
        }
    }
}

// The answer of a guard that is passed by value, and the guard.
impl From<(Result<Answer, Refused>, Guard)> for FloeAsked {
    ghost from_gives = { λ asked r. r ≡ flat_asked asked };

    fn from(asked: (Result<Answer, Refused>, Guard)) -> FloeAsked {
        let (answer, guard) = asked;
        let said = FloeRowAsked::from(answer);
        FloeAsked {
            refused: said.refused,
            at: said.at,
            answer: said.answer,
            guard,
        }
    }
}

// What a guard that is passed by value says when it is told, and the guard then.
impl From<(Result<(), Refused>, Guard)> for FloeTold {
    ghost from_gives = { λ told r. r ≡ flat_told told };

    fn from(told: (Result<(), Refused>, Guard)) -> FloeTold {
        let (answer, guard) = told;
        let said = FloeDone::from(answer);
        FloeTold {
            refused: said.refused,
            at: said.at,
            guard,
        }
    }
}

// A log is opened at place 0, and a refusal keeps that place.
impl From<Result<(), Refused>> for FloeLogOpened {
    ghost from_gives = { λ opened r. r ≡ flat_opened opened };

    fn from(opened: Result<(), Refused>) -> FloeLogOpened {
        let (refused, at) = numbers(&opened);
        FloeLogOpened {
            refused,
            at,
            place: 0,
        }
    }
}

// What a log hands out, and the place where the reader then stands.
impl From<(Result<Option<bool>, Refused>, u64)> for FloeLogRead {
    ghost from_gives = { λ read r. r ≡ flat_log_read read };

    fn from(read: (Result<Option<bool>, Refused>, u64)) -> FloeLogRead {
        let (outcome, place) = read;
        let (refused, at) = numbers(&outcome);
        let answer = match outcome {
            Ok(Some(hit)) => hit as u64,
            Ok(None) => 2,
            Err(_) => 3, // what is refused isn't the end
        };
        FloeLogRead {
            refused,
            at,
            answer,
            place,
        }
    }
}
