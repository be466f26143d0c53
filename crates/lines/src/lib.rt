#![tactic(auto)]
// The lines of the text: the first line, and a line for each call.
ghost use Rattle.std.specs.Prelude.{◌≡◌, ◌++◌, ◌+◌, ◌<◌, ◌≤◌, length, Ok};
ghost use Rattle.lines.specs.Words.{newline};
ghost use Rattle.lines.specs.Lines.{plan_line, refused_line, refusal_text, said, line};
ghost use Rattle.lines.specs.Told.{answer_of, reply_of};
ghost use Rattle.machine.specs.Answers.{replied, Refused};
ghost use Rattle.plan.specs.Refusals.{number_of};
ghost use Rattle.numerals.specs.Decimal.{number_then};
ghost use Rattle.numerals.specs.Texts.{Puts};
ghost use Rattle.numerals.specs.Writing.{Put};

use judge::Acceptance;
use machine::Done;
use numerals::text::Text;
use plan::Refusal;

// What a plan was turned down with, as it is put: any number and any place, also one that no test has.
#[derive(Clone, Copy, PartialEq, Eq)]
pub struct Numbered {
    pub number: u32,
    pub place: u32,
}

impl From<Refusal> for Numbered {
    ghost from_gives = { λ refusal numbered. numbered ≡ record { number = number_of refusal.test; place = refusal.place } };

    fn from(refusal: Refusal) -> Numbered {
        Numbered {
            number: u32::from(refusal.test),
            place: refusal.place,
        }
    }
}

// First line: `plan` Q N least. Put at the start of the buffer; answers its length.
pub fn put_plan_line(out: &mut [u8], accepted: Acceptance) -> usize
    ensures { Put out.old 0 (plan_line accepted.q accepted.modulus accepted.least) out.new result × (result ≤ 38) }
{
    let mut text = Text {
        buffer: &mut *out,
        length: 0,
    };
    text.put_word(b"plan ");
    text.put_number(accepted.q, b' ');
    text.put_number(accepted.modulus, b' ');
    text.put_number(accepted.least, b'\n');
    text.length
}

// First line: `refused` number place.
fn put_refused_line(out: &mut [u8], number: u32, place: u32) -> usize
    ensures { Put out.old 0 (refused_line number place) out.new result × (result ≤ 38) }
{
    let mut text = Text {
        buffer: &mut *out,
        length: 0,
    };
    text.put_word(b"refused ");
    text.put_number(number, b' ');
    text.put_number(place, b'\n');
    text.length
}

// The whole text of a refusal; an accepted plan is no refusal and prints nothing here.
pub fn put_refusal(out: &mut [u8], answer: Result<Acceptance, Numbered>) -> usize
    ensures { Put out.old 0 (refusal_text (answer_of answer)) out.new result × (result ≤ 38) }
{
    match answer {
        Ok(_) => 0,
        Err(refusal) => put_refused_line(out, refusal.number, refusal.place),
    }
}

// A word and a number, and the line's end.
fn put_said(text: &mut Text, word: &[u8], n: u32)
    requires { (text.old.length < 1000000) × (length word.now ≤ 9) }
    ensures { Puts text.old (word.now ++ number_then n newline) text.new × (text.new.length ≤ text.old.length + 20) }
{
    text.put_word(word);
    text.put_number(n, b'\n');
}

// `opened`, `found` or `wait` with edges left, or `fired` with the node. (`statecheck` formats the same words; here bytes are put as the proof
// counts them.)
fn put_done(text: &mut Text, done: Done)
    requires { text.old.length < 1000000 }
    ensures { Puts text.old (said (replied (Ok done))) text.new × (text.new.length ≤ text.old.length + 20) }
{
    match done {
        Done::Opened { edges } => put_said(text, b" opened ", edges),
        Done::Found { left } => put_said(text, b" found ", left),
        Done::Wait { left } => put_said(text, b" wait ", left),
        Done::Fired { node } => put_said(text, b" fired ", node),
    }
}

// `refused` with the number.
fn put_number_said(text: &mut Text, number: u32)
    requires { text.old.length < 1000000 }
    ensures { Puts text.old (said (Refused number)) text.new × (text.new.length ≤ text.old.length + 20) }
{
    put_said(text, b" refused ", number);
}

// What a call did, or `refused` with the number, whichever it is.
fn put_reply(text: &mut Text, reply: Result<Done, u32>)
    requires { text.old.length < 1000000 }
    ensures { Puts text.old (said (reply_of reply)) text.new × (text.new.length ≤ text.old.length + 20) }
{
    match reply {
        Ok(done) => put_done(text, done),
        Err(number) => put_number_said(text, number),
    }
}

// The line of a call: its index, and what was answered.
pub fn put_line(text: &mut Text, index: u32, reply: Result<Done, u32>)
    requires { (text.old.length < 900000) × (index < 100000) }
    ensures { Puts text.old (line index (reply_of reply)) text.new × (text.new.length ≤ text.old.length + 25) }
{
    text.put_decimal(index);
    put_reply(text, reply);
}
