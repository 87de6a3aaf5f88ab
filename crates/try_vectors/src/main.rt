// Runs the vectors on standard input through the library's functions, one vector a line, and refuses nothing.
// Each line is printed as it stands, then ` = ` and the answers. Comments begin with `#`; they and empty lines have none.
// `r SET` reads; `w SET` reads and writes; `m SET SIZE` writes from memory; `j SET OUTCOMES` judges; `c SET SET` compares.
// `l OUTCOMES SIZE` writes a log; `o LOG` opens one; `n LOG PLACE` calls its reader there, `a LOG CALLS` so many times from place 0; `v SET LOG` judges it.
// `t TABLE` checks a table. `g TABLE ACTIONS` drives a guard with nothing told; `h TABLE STATE LOST OUTCOMES COUNT ACTIONS` drives one made by hand.
// `p SET TABLE ACTIONS` drives one through changes of the battery. `k SET STATE LOST OUTCOMES COUNT SIZE` writes a record; `b RECORD TABLE ACTIONS` reads one back and drives its guard.
// The handle and the line are handed on side by side: a struct of both would need the handle's type as a parameter.
#![tactic(auto)]

ghost use Rattle.std.specs.Prelude.{◌≡◌, length};

mod actions;
mod answers;
mod carries;
mod fields;
mod guards;
mod limits;
mod logs;
mod memory;
mod tables;
mod text;

// The answer to a vector.
fn answer(rt: &impl Print, line: &[u8], command: u8) {
    text::print(rt, " = ");
    match command {
        b'r' => limits::try_read(rt, line),
        b'w' => limits::try_write(rt, line),
        b'm' => memory::write_from(rt, line),
        b'j' => limits::try_judge(rt, line),
        b'c' => limits::try_compare(rt, line),
        b'l' => logs::try_write(rt, line),
        b'o' => logs::try_open(rt, line),
        b'n' => logs::try_at(rt, line),
        b'a' => logs::try_calls(rt, line),
        b'v' => logs::try_judge(rt, line),
        b't' => tables::try_check(rt, line),
        b'g' => guards::try_new(rt, line),
        b'h' => guards::try_by_hand(rt, line),
        b'p' => carries::try_changes(rt, line),
        b'k' => carries::try_write(rt, line),
        b'b' => carries::try_read(rt, line),
        _ => text::print(rt, "no such command"),
    }
}

// Prints a line, and the answer to its vector; a comment and an empty line have none.
fn try_line(rt: &impl Print, line: &[u8]) {
    let _ = rt.write_all(line);
    match line {
        [] | [b'#', ..] => {}
        [command, ..] => answer(rt, line, *command),
    }
    text::print(rt, "\n");
}

fn run(rt: &impl Print, lines: &[u8]) {
    for line in lines.split_inclusive(|byte| *byte == b'\n') {
        try_line(rt, line.strip_suffix(b"\n").unwrap_or(line));
    }
}

// 131,072 zeros, into which the vectors are read.
fn input() -> [u8; 131072]
    ensures { 131072 ≡ length result }
{
    [0; 131072]
}

fn main(rt: HostRuntime) {
    let mut lines = input();
    // 0 is standard input
    let n = io::read_full(0, &mut lines);
    run(&rt, &lines[..n]);
}
