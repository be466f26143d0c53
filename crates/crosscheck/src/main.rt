#![tactic(auto)]
// Answers a long stream of inputs in one process, for comparison with the second program. The stream is, again and again, a length of four
// bytes, the lower byte first, and that many bytes of `planrun`'s input. For each it writes a line `case K`, K from 0, and `planrun`'s text.
// A read or a write that fails ends the stream and is told in one line on standard error.
// The stored stream is what second/stored.c writes, and the stored answers are those of second/stream.c to it (second/README.md).
ghost use Rattle.std.specs.Io.KnownBytes.{Appends};

use printing::INPUT;
use std::fmt;
use std::fmt::Write as _;
use std::io::{Read, Write};
use std::time::Clock;

// What a read and a write that fail are told by.
const CANNOT_READ: &[u8] = b"crosscheck: cannot read standard input";

const CANNOT_WRITE: &[u8] = b"crosscheck: cannot write standard output";

// The output as a writer of text. A write that fails is told.
#[derive(Drop)]
struct Lines<'a, R, O> {
    rt: &'a R,
    output: &'a mut O,
}

impl<R: Clock + Eprint, O: Write> fmt::Write for Lines<'_, R, O> {
    ghost write_str_gives = { λ old text new. Appends (O.contents old.output.now) (O.contents new.output.now) text };

    fn write_str(&mut self, text: &str) -> fmt::Result {
        streams::write_all(self.rt, self.output, text.as_bytes(), CANNOT_WRITE)?;
        Ok(())
    }
}

// Reads bytes and drops them: None where the stream is cut.
fn skip<I: Read>(rt: &(impl Clock + Eprint), input: &mut I, length: usize) -> Option<()> {
    for _ in 0..length {
        streams::fill(rt, input, &mut [0u8; 1], CANNOT_READ)?;
    }
    Some(())
}

// Reads a case, keeping what `planrun` would read, and answers it: None where the stream is cut in it or a write fails.
fn answer_case<I: Read, O: Write>(
    rt: &(impl Clock + Eprint),
    input: &mut I,
    output: &mut O,
    number: u64,
) -> Option<()> {
    let length = streams::next_length(rt, input, CANNOT_READ)?;
    let mut bytes = streams::room::<INPUT>();
    let kept = length.min(INPUT);
    streams::fill(rt, input, &mut bytes[..kept], CANNOT_READ)?;
    skip(rt, input, length - kept)?;
    writeln!(Lines { rt, output }, "case {number}").ok()?;
    printing::print_text(rt, output, &bytes[..kept], CANNOT_WRITE).ok()
}

// Answers case after case, to the stream's end.
fn main(rt: HostRuntime) {
    let mut input = rt.stdin();
    let mut output = rt.stdout();
    for number in 0..u64::MAX {
        if answer_case(&rt, &mut input, &mut output, number).is_none() {
            return;
        }
    }
}
