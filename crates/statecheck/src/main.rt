#![tactic(auto)]
// Answers a stream of made-up plan values, states and requests, for comparison with the second program. The stream is, again and again, a
// length of four bytes and a record of that many bytes, at most 65,536; the record is described in `record.rt`. For each it writes a line
// `case K`, K from 0, a line for each request, and the state that the requests leave. A stream that is cut has come to its end. A read or a
// write that fails ends the stream and is told in one line on standard error; the records read before a failed read are answered.
ghost use Rattle.std.specs.Prelude.{◌≤◌, IfSome};

use std::fmt;
use std::io::Read;
use std::time::Clock;
use text::Buffer;

mod answers;
mod record;
mod states;
mod text;

// What a read that fails is told by.
const CANNOT_READ: &[u8] = b"statecheck: cannot read standard input";

// Reads the next record: its length. None at the stream's end, and where the record is too long or cut.
fn next_record<I: Read>(
    rt: &(impl Clock + Eprint),
    input: &mut I,
    room: &mut [u8; 65536],
) -> Option<usize>
    ensures { IfSome result (λ length. length ≤ 65536) }
{
    let length = streams::next_length(rt, input, CANNOT_READ)?;
    if 65536 < length {
        return None;
    }
    streams::fill(rt, input, &mut room[..length], CANNOT_READ)?;
    Some(length)
}

// The text of one record.
fn put_case(out: &mut impl fmt::Write, number: u32, record: &[u8]) -> fmt::Result {
    writeln!(out, "case {number}")?;
    let plan = record::plan_in(record);
    let mut state = record::state_in(record);
    answers::put_requests(out, &plan, &mut state, record)?;
    states::put_state(out, &state)
}

// Answers every record, to the stream's end: an error where a write fails.
fn answer_all<I: Read>(
    rt: &(impl Clock + Eprint),
    input: &mut I,
    out: &mut impl fmt::Write,
) -> fmt::Result {
    let mut room = streams::room::<65536>();
    for number in 0..u32::MAX {
        let Some(length) = next_record(rt, input, &mut room) else {
            return Ok(());
        };
        put_case(out, number, &room[..length])?;
    }
    Ok(())
}

// Answers the stream on standard input and writes what is left in the buffer.
fn main(rt: HostRuntime) {
    let mut out = Buffer::new(&rt);
    if answer_all(&rt, &mut rt.stdin(), &mut out).is_ok() {
        let _ = out.write();
    }
}
