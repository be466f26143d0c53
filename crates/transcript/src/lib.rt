#![tactic(auto)]
// The whole text that `planrun` prints for an input: the first line, a line for each call, `cut`; or `too long`.
// `as` stands where std has no `From`: a `usize` from a `u32`, or a number that is proved to fit the smaller type.
ghost use Rattle.std.specs.Prelude.{◌≡◌, ◌+◌, ◌<◌, ◌≤◌, length};
ghost use Rattle.plan.specs.Faults.{InShape};
ghost use Rattle.numerals.specs.LittleEndian.{four_bytes};
ghost use Rattle.numerals.specs.Texts.{Puts};
ghost use Rattle.numerals.specs.Writing.{Put};
ghost use Rattle.machine.specs.States.{fresh};
ghost use Rattle.transcript.specs.Text.{calls_text, image_length, run_text, text_of, printed_as};
ghost use Rattle.lines.specs.Words.{too_long_line};
ghost use Rattle.lines.specs.Told.{reply_of};
ghost use Rattle.machine.specs.Answers.{replied};
ghost use Rattle.transcript.specs.Running.{cut_if};
ghost use Rattle.transcript.specs.Printing.{Answers};

use lines::Numbered;
use machine::Done;
use numerals::text::Text;
use plan::Plan;
use refusals::{Reason, Request};
use state::State;

// A buffer that is too short for the text, which is so long.
#[derive(Clone, Copy, PartialEq, Eq)]
pub struct TooShort {
    pub needed: usize,
}

// T, the total field.
fn total_field(input: &[u8]) -> usize
    requires { 36 ≤ length input.now }
    ensures { result ≡ four_bytes input.now 32 }
{
    numerals::quad_at(input, 32) as usize
}

// The image is the first T bytes; the whole input where T is missing, below 36 or beyond the input.
fn image_length(input: &[u8]) -> usize
    ensures { (result ≡ image_length input.now) × (result ≤ length input.now) }
{
    if input.len() < 36 {
        return input.len();
    }
    let total = total_field(input);
    if total < 36 {
        return input.len();
    }
    if input.len() < total {
        return input.len();
    }
    total
}

// One to three bytes left over print `cut`.
fn put_left_over(text: &mut Text, left: usize)
    requires { text.old.length < 1000000 }
    ensures { Puts text.old (cut_if left) text.new × (text.new.length ≤ text.old.length + 4) }
{
    if left != 0 {
        text.put_word(b"cut\n");
    }
}

// What a call was answered, a refusal by its number.
fn numbered(reply: Result<Done, Reason>) -> Result<Done, u32>
    ensures { reply_of result ≡ replied reply }
{
    match reply {
        Ok(done) => Ok(done),
        Err(reason) => Err(u32::from(reason)),
    }
}

// The calls of four bytes: code, process, edge (two bytes). The run begins from an accepted plan, fresh; each call keeps the shape, so none is tested.
// (The plan's shape stands in this one contract: a type for it would be no plainer.)
fn put_calls(text: &mut Text, plan: &Plan, calls: &[u8])
    requires { InShape plan.now × (length calls.now ≤ 65536) × (text.old.length ≤ 38) }
    ensures { Puts text.old (calls_text plan.now fresh 0 calls.now) text.new × (text.new.length ≤ 409642) }
{
    let mut state = State::fresh();
    let count = calls.len() / 4;
    for index in 0..count {
        let i = 4 * index;
        let request = Request {
            code: u32::from(calls[i]),
            process: u32::from(calls[i + 1]),
            edge: u32::from(numerals::pair_at(calls, i + 2)),
        };
        let reply = numbered(machine::step_in_shape(plan, &mut state, request));
        lines::put_line(text, index as u32, reply);
    }
    put_left_over(text, calls.len() - 4 * count);
}

// The text of an input that is not too long: `plan` Q N least and the calls, or `refused` number place and then nothing more.
fn put_run(out: &mut [u8], input: &[u8]) -> usize
    requires { length input.now ≤ 65536 }
    ensures { Put out.old 0 (run_text input.now) out.new result × (result ≤ 409642) }
{
    let end = image_length(input);
    let reading = reader::read(&input[..end]);
    let accepted = match reading.answer {
        Ok(accepted) => accepted,
        Err(refusal) => return lines::put_refusal(out, Err(Numbered::from(refusal))),
    };
    let length = lines::put_plan_line(out, accepted);
    let mut text = Text {
        buffer: &mut *out,
        length,
    };
    put_calls(&mut text, &reading.plan, &input[end..]);
    text.length
}

// More than 65,536 bytes.
fn put_too_long(out: &mut [u8]) -> usize
    ensures { Put out.old 0 too_long_line out.new result × (result ≤ 9) }
{
    let mut text = Text {
        buffer: &mut *out,
        length: 0,
    };
    text.put_word(b"too long\n");
    text.length
}

// The text in a buffer from its start, and how long it is: what the buffer has no room for is counted and not written. With more than
// 65,536 bytes `too long` only.
#[tactic(auto, using(crate::specs::Printing::text_long, crate::specs::Printing::text_run))]
fn put_text(out: &mut [u8], input: &[u8]) -> usize
    ensures { Put out.old 0 (text_of input.now) out.new result × (result ≤ 409642) }
{
    if 65536 < input.len() {
        put_too_long(out)
    } else {
        put_run(out, input)
    }
}

// Writes the whole text and answers its length; what lies past it stays. Where `out` has no room for the longest text it is counted
// first, in a buffer without room: where `out` is shorter than the text nothing is written.
pub fn transcript(input: &[u8], out: &mut [u8]) -> Result<usize, TooShort>
    ensures { Answers input.now out.old out.new (printed_as result) }
{
    if 409642 <= out.len() {
        return Ok(put_text(out, input));
    }
    let needed = put_text(&mut [], input);
    if out.len() < needed {
        return Err(TooShort { needed });
    }
    put_text(out, input);
    Ok(needed)
}
