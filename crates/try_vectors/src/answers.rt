// The answers of the library's functions as text, one function for each type of answer, and guards as they stand afterwards.
// A set is its count and its limits, each as kind, x, k; jobs are numbered from 1, limits from 0.
// A comparison's refusal also says which set was refused, 1 or 2.
use crate::text;
use compare::{Pattern, RefusedSet};
use guard::{Answer, Guard};
use layout::Refused;
use meaning::LimitSet;
use verdict::Loss;

// As `accepted 2: 0 2 4, 3 2 0`.
fn print_set(rt: &impl Print, set: LimitSet) {
    let _ = print!(rt; "accepted {}:", set.count);
    for (i, limit) in set.limits.iter().take(set.count).enumerate() {
        if 0 < i {
            text::print(rt, ",");
        }
        let _ = print!(rt; " {} {} {}", limit.kind, limit.x, limit.k);
    }
}

pub(crate) fn print_read(rt: &impl Print, read: Result<LimitSet, Refused>) {
    match read {
        Ok(set) => print_set(rt, set),
        Err(refused) => text::print_refusal(rt, refused),
    }
}

// As `written 9`.
pub(crate) fn print_written(rt: &impl Print, written: Result<usize, Refused>) {
    print_counted(rt, written, "written");
}

// As `states 3`.
pub(crate) fn print_checked(rt: &impl Print, checked: Result<usize, Refused>) {
    print_counted(rt, checked, "states");
}

fn print_counted(rt: &impl Print, counted: Result<usize, Refused>, word: &str) {
    match counted {
        Ok(n) => {
            let _ = print!(rt; "{word} {n}");
        }
        Err(refused) => text::print_refusal(rt, refused),
    }
}

// As `lost at 4 by limit 0 from 3`, or from -1 where the window begins before the pattern.
fn print_loss(rt: &impl Print, loss: Loss) {
    let _ = print!(rt;
        "lost at {} by limit {} from {}",
        loss.job, loss.limit, loss.first
    );
}

pub(crate) fn print_judged(rt: &impl Print, judged: Result<Option<Loss>, Refused>) {
    match judged {
        Ok(None) => text::print(rt, "kept"),
        Ok(Some(loss)) => print_loss(rt, loss),
        Err(refused) => text::print_refusal(rt, refused),
    }
}

// As `between 0011100`.
fn print_between(rt: &impl Print, pattern: Pattern) {
    text::print(rt, "between ");
    text::print_outcomes(
        rt,
        &pattern.outcomes[..pattern.length.min(pattern.outcomes.len())],
    );
}

// As `refused 3 at 0 in set 1`.
fn print_refused_set(rt: &impl Print, refused: RefusedSet) {
    text::print_refusal(rt, refused.why());
    let _ = print!(rt; " in set {}", refused.which());
}

pub(crate) fn print_compared(rt: &impl Print, compared: Result<Option<Pattern>, RefusedSet>) {
    match compared {
        Ok(None) => text::print(rt, "covers"),
        Ok(Some(pattern)) => print_between(rt, pattern),
        Err(refused) => print_refused_set(rt, refused),
    }
}

// The word, or why it was refused.
pub(crate) fn print_done(rt: &impl Print, done: Result<(), Refused>, word: &str) {
    match done {
        Ok(()) => text::print(rt, word),
        Err(refused) => text::print_refusal(rt, refused),
    }
}

// An outcome as its digit.
pub(crate) fn print_handed(rt: &impl Print, handed: Result<Option<bool>, Refused>) {
    match handed {
        Ok(Some(false)) => text::print(rt, "0"),
        Ok(Some(true)) => text::print(rt, "1"),
        Ok(None) => text::print(rt, "end"),
        Err(refused) => text::print_refusal(rt, refused),
    }
}

pub(crate) fn print_asked(rt: &impl Print, asked: Result<Answer, Refused>) {
    match asked {
        Ok(Answer::Normal) => text::print(rt, "normal"),
        Ok(Answer::Panic) => text::print(rt, "panic"),
        Ok(Answer::Lost) => text::print(rt, "lost"),
        Err(refused) => text::print_refusal(rt, refused),
    }
}

// As `state 1 lost, told 3, holds 111111111111110`; `lost` only where it is.
pub(crate) fn print_guard(rt: &impl Print, guard: Guard) {
    let lost = if guard.lost { " lost" } else { "" };
    let _ = print!(rt; "state {}{lost}, told {}, holds ", guard.state, guard.count);
    for hit in guard.outcomes {
        let _ = print!(rt; "{}", hit as u8);
    }
}
