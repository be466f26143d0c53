#![tactic(auto)]
// Reading and writing for programs that never take an error for the end of the input or for success. A call that a signal interrupts, and
// one that a non-blocking stream answers with "try again", is tried again; one that moves a part of the bytes is continued.
// `as` stands where std has no `From`: a `usize` from a `u32`, or a number that is proved to fit the smaller type.
// `rt`, a stream and `words` are parameters of their own: they carry no fact, and a struct of them would be built for one call each.
ghost use Rattle.std.specs.Prelude.{◌≡◌, ◌↔◌, ◌⊎◌, IfOk, IfSome, IsErr, IsTrue, MatchResult, OnOk, OnErr, OnSome, length};
ghost use Rattle.std.specs.Counts.{IsPrefixLen};
ghost use Rattle.std.specs.Io.{ReadsAtMost};
ghost use Rattle.std.specs.Io.KnownBytes.{Appends, Consumes, Keeps, ReadConsumes, WriteAppends};
ghost use Rattle.std.specs.IoError.{error_kind};
ghost use Rattle.streams.specs.Counted.{got_of, counts_as};
ghost use Rattle.streams.specs.Held.{AppendsPart, Held, Takes, TakesNumber, Tried};

#[cfg(test)]
mod tests;

use arrayvec::ArrayString;
use std::fmt::Write as _;
use std::io::{ErrorKind, Read, Write};
use std::time::{Clock, Duration};
use std::{fmt, io, thread};

// A call failed, and one line on standard error told it.
#[derive(Clone, Copy, Debug, Drop, PartialEq, Eq)]
pub struct Told;

impl From<Told> for fmt::Error {
    fn from(_: Told) -> fmt::Error {
        fmt::Error
    }
}

// Room for so many bytes.
pub fn room<const N: usize>() -> [u8; N]
    ensures { length result ≡ N }
{
    [0; N]
}

// How often a stream that is not ready is tried again before it counts as failed.
const TRIES: u64 = 4294967296;

// Whether the call that failed may be tried again.
fn not_ready(error: &io::Error) -> bool
    ensures { IsTrue result ↔ ((error_kind error.now ≡ ErrorKind.Interrupted) ⊎ (error_kind error.now ≡ ErrorKind.WouldBlock)) }
{
    matches!(error.kind(), ErrorKind::Interrupted | ErrorKind::WouldBlock)
}

// Waits a millisecond.
fn pause(clock: &impl Clock) {
    thread::sleep(clock, Duration::from_millis(1));
}

// Calls again while the stream is not ready: the answer of the last call.
fn tried<T, C: FnMut() -> io::Result<T>>(clock: &impl Clock, call: &mut C) -> io::Result<T>
    requires { C.IsAlwaysCallable call.old }
    ensures { Tried C.step call.old result call.new }
{
    for _ in 0..TRIES {
        match call() {
            Err(error) if not_ready(&error) => pause(clock),
            answer => return answer,
        }
    }
    call()
}

// One read that moves bytes, fails, or finds the end of the input: 0 bytes.
fn read_part<I: Read>(clock: &impl Clock, input: &mut I, part: &mut [u8]) -> io::Result<usize>
    ensures bound { ReadsAtMost result part.new }
    ensures bytes { ReadConsumes (I.remaining input.old) (I.remaining input.new) result part.new }
{
    tried(clock, &mut || input.read(part))
}

// Reads the input until the buffer is full or the input ends. Fewer bytes than the buffer has are there only at the end of the input.
// A `while`, as it goes on by what was moved: std's `read_exact` tries nothing again and does not say what it read before an error.
fn read_bytes<I: Read>(clock: &impl Clock, input: &mut I, buffer: &mut [u8]) -> io::Result<usize>
    ensures bound { ReadsAtMost result buffer.new }
    ensures bytes { Takes (I.remaining input.old) (I.remaining input.new) result buffer.new }
{
    let mut done: usize = 0;
    while done < buffer.len() {
        let count = read_part(clock, input, &mut buffer[done..])?;
        if count == 0 {
            break;
        }
        done += count;
    }
    Ok(done)
}

// One write that moves bytes or fails.
fn write_part<O: Write>(clock: &impl Clock, output: &mut O, part: &[u8]) -> io::Result<usize>
    ensures bound { IfOk result (λ count. IsPrefixLen count part.now) }
    ensures bytes { WriteAppends (O.contents output.old) (O.contents output.new) result part.now }
{
    tried(clock, &mut || output.write(part))
}

// Lets go of what the output may hold back.
fn flush<O: Write>(clock: &impl Clock, output: &mut O) -> io::Result<()>
    ensures { Keeps (O.contents output.old) (O.contents output.new) }
{
    tried(clock, &mut || output.flush())
}

// Writes all of a text: an error where a write fails or takes nothing, when a part of the text may have been written.
// A `while`, as it goes on by what was moved: std's `write_all` tries nothing again.
fn write_bytes<O: Write>(clock: &impl Clock, output: &mut O, text: &[u8]) -> io::Result<()>
    ensures ok { OnOk result (Appends (O.contents output.old) (O.contents output.new) text.now) }
    ensures err { OnErr result (AppendsPart (O.contents output.old) (O.contents output.new) text.now) }
{
    let mut done: usize = 0;
    while done < text.len() {
        let count = write_part(clock, output, &text[done..])?;
        if count == 0 {
            return Err(ErrorKind::WriteZero.into());
        }
        done += count;
    }
    flush(clock, output)
}

// What a call's error is told by: these words and the system's reason. The words are bytes, so that callers may pass any.
#[derive(Clone, Copy)]
struct Line<'a> {
    words: &'a [u8],
    error: &'a io::Error,
}

impl fmt::Display for Line<'_> {
    fn fmt<W: fmt::Write>(&self, f: &mut fmt::Formatter<W>) -> fmt::Result {
        for byte in self.words {
            f.write_char(char::from(*byte))?;
        }
        f.write_str(": ")?;
        // The system's reason stands in front of its number.
        let mut text = ArrayString::<320>::new();
        let error = self.error;
        write!(text, "{error}")?;
        match text.as_str().rsplit_once(" (os error ") {
            Some((reason, _)) => f.write_str(reason),
            None => f.write_str(text.as_str()),
        }
    }
}

// Tells an error in one line on standard error. Where that cannot be written, nothing can be told.
fn tell(rt: &impl Eprint, words: &[u8], error: &io::Error) {
    let _ = rt.eprintln(Line { words, error });
}

// What a call answered: an error is a failure, which is told, and nothing else is.
fn answered<T>(rt: &impl Eprint, answer: io::Result<T>, words: &[u8]) -> Result<T, Told>
    ensures { MatchResult answer (λ value. result ≡ Ok value) (λ _. IsErr result) }
{
    answer.map_err(|error| {
        tell(rt, words, &error);
        Told
    })
}

// What a read on these bytes answered, counted within them: an error is a failure, which is told, and nothing else is.
#[tactic(auto, using(crate::specs::Counted::counted_is))]
fn counted(
    rt: &impl Eprint,
    got: io::Result<usize>,
    bytes: &[u8],
    words: &[u8],
) -> Result<usize, Told>
    requires { ReadsAtMost got bytes.now }
    ensures value { got_of result ≡ counts_as got (length bytes.now) }
    ensures held { Held result bytes.now }
    ensures same { MatchResult got (λ value. result ≡ Ok value) (λ _. IsErr result) }
{
    answered(rt, got, words)
}

// Reads the input until the buffer is full or the input ends. Where a read fails, one line on standard error has these words and the system's
// reason.
pub fn read_all<I: Read>(
    rt: &(impl Clock + Eprint),
    input: &mut I,
    buffer: &mut [u8],
    words: &[u8],
) -> Result<usize, Told>
    ensures held { Held result buffer.new }
    ensures bytes { Takes (I.remaining input.old) (I.remaining input.new) result buffer.new }
{
    let answer = read_bytes(rt, input, buffer);
    counted(rt, answer, buffer, words)
}

// Writes all of a text to the output. Where a write fails, one line on standard error has these words and the system's reason.
pub fn write_all<O: Write>(
    rt: &(impl Clock + Eprint),
    output: &mut O,
    text: &[u8],
    words: &[u8],
) -> Result<(), Told>
    ensures written { OnOk result (Appends (O.contents output.old) (O.contents output.new) text.now) }
    ensures part { OnErr result (AppendsPart (O.contents output.old) (O.contents output.new) text.now) }
{
    let answer = write_bytes(rt, output, text);
    answered(rt, answer, words)
}

// Reads the input until the buffer is full. None where the input ends before that or a read fails, which is told.
pub fn fill<I: Read>(
    rt: &(impl Clock + Eprint),
    input: &mut I,
    buffer: &mut [u8],
    words: &[u8],
) -> Option<()>
    ensures { OnSome result (Consumes (I.remaining input.old) (I.remaining input.new) buffer.new) }
{
    let count = read_all(rt, input, buffer, words).ok()?;
    if count < buffer.len() {
        return None;
    }
    Some(())
}

// The length in front of a record of a stream: four bytes, the lower byte first. None where the stream ends before it or in it, or a read fails,
// which is told.
pub fn next_length<I: Read>(
    rt: &(impl Clock + Eprint),
    input: &mut I,
    words: &[u8],
) -> Option<usize>
    ensures { IfSome result (λ length. TakesNumber (I.remaining input.old) (I.remaining input.new) length) }
{
    let mut bytes = [0u8; 4];
    fill(rt, input, &mut bytes, words)?;
    Some(u32::from_le_bytes(bytes) as usize)
}
