// The lines of a state: `turn T`, `counter C VALUE` for each that is not 0, and by process `process P POSITION OPEN` where one of both is not 0
// and `mark P E VALUE` for each that is not 0.
ghost use Rattle.std.specs.Prelude.{◌+◌, ◌<◌, ◌≤◌, ◌^◌, length};

use state::State;
use std::fmt;

// A state.
pub fn put_state(out: &mut impl fmt::Write, state: &State) -> fmt::Result {
    let turn = state.turn;
    writeln!(out, "turn {turn}")?;
    for (c, value) in state.counters.iter().enumerate() {
        if *value != 0 {
            writeln!(out, "counter {c} {value}")?;
        }
    }
    for (p, row) in state.marks.chunks(512).enumerate() {
        put_process(out, p, state.positions[p], state.opened[p])?;
        put_marks(out, p, row)?;
    }
    Ok(())
}

// A process's position and open flag where one of both is not 0.
fn put_process(out: &mut impl fmt::Write, p: usize, position: u16, open: u8) -> fmt::Result {
    if position != 0 || open != 0 {
        writeln!(out, "process {p} {position} {open}")?;
    }
    Ok(())
}

// Whether nothing is marked in a part of a row: its bytes taken together, so that one without marks costs little.
fn is_unmarked(part: &[u8]) -> bool {
    part.iter().fold(0, |together, value| together | *value) == 0
}

// A mark.
fn put_mark(out: &mut impl fmt::Write, p: usize, e: usize, value: u8) -> fmt::Result {
    writeln!(out, "mark {p} {e} {value}")
}

// The marks of a part of a process's row that are not 0.
fn put_part(out: &mut impl fmt::Write, p: usize, from: usize, part: &[u8]) -> fmt::Result
    requires { from + length part.now < 2 ^ 32 }
{
    if is_unmarked(part) {
        return Ok(());
    }
    for (e, value) in part.iter().enumerate() {
        if *value != 0 {
            put_mark(out, p, from + e, *value)?;
        }
    }
    Ok(())
}

// The marks of a process that are not 0.
fn put_marks(out: &mut impl fmt::Write, p: usize, row: &[u8]) -> fmt::Result
    requires { length row.now ≤ 512 }
{
    for (k, part) in row.chunks(64).enumerate() {
        put_part(out, p, 64 * k, part)?;
    }
    Ok(())
}
