#![tactic(auto)]
// What `planrun` prints for an input, written to an output: for `planrun` itself and for `crosscheck`.
ghost use Rattle.std.specs.Prelude.{OnErr, OnOk};
ghost use Rattle.std.specs.Io.KnownBytes.{Appends};
ghost use Rattle.streams.specs.Held.{AppendsPart};
ghost use Rattle.transcript.specs.Text.{text_of};

use std::io::Write;
use std::time::Clock;
use streams::Told;

// How many bytes of an input are read: 65,536, and one more to notice that there are more.
pub const INPUT: usize = 65537;

// The length that is proved to be the most that a text has.
const TEXT: usize = 409642;

// Writes the whole text of an input. Where a write fails, one line on standard error has these words and the system's reason.
#[tactic(auto, using(crate::proofs::First::text_first, crate::proofs::First::fits, crate::proofs::First::counted))]
pub fn print_text<O: Write>(
    rt: &(impl Clock + Eprint),
    output: &mut O,
    input: &[u8],
    words: &[u8],
) -> Result<(), Told>
    ensures whole { OnOk result (Appends (O.contents output.old) (O.contents output.new) (text_of input.now)) }
    ensures part { OnErr result (AppendsPart (O.contents output.old) (O.contents output.new) (text_of input.now)) }
{
    let mut out = streams::room::<TEXT>();
    let Ok(length) = transcript::transcript(input, &mut out) else {
        unreachable!();
    };
    streams::write_all(rt, output, &out[..length], words)
}
