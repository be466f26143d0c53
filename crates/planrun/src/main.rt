#![tactic(auto)]
// Reads at most 65,536 bytes of standard input, and one more to notice that there are more, and writes the whole text. A read or a write that
// fails is told in one line on standard error; after a read that fails nothing else is printed.
ghost use Rattle.std.specs.Prelude.{IfSome, OnErr, OnOk};
ghost use Rattle.std.specs.Io.KnownBytes.{Appends};
ghost use Rattle.streams.specs.Held.{AppendsPart};
ghost use Rattle.transcript.specs.Text.{text_of};

use printing::INPUT;
use std::io::{Read, Write};
use std::time::Clock;
use streams::Told;

// Reads an input to its end, or one byte more than the most, and writes the text of all of it. Where a read or a write fails, no more than a
// part of that text was written.
#[tactic(auto, using(crate::proofs::All::whole, crate::proofs::All::part))]
fn run<I: Read, O: Write>(
    rt: &(impl Clock + Eprint),
    input: &mut I,
    output: &mut O,
) -> Result<(), Told>
    ensures whole { OnOk result (IfSome (I.remaining input.old) (λ bytes. Appends (O.contents output.old) (O.contents output.new) (text_of bytes))) }
    ensures part { OnErr result (IfSome (I.remaining input.old) (λ bytes. AppendsPart (O.contents output.old) (O.contents output.new) (text_of bytes))) }
{
    let mut buffer = streams::room::<INPUT>();
    let count = streams::read_all(
        rt,
        input,
        &mut buffer,
        b"planrun: cannot read standard input",
    )?;
    printing::print_text(
        rt,
        output,
        &buffer[..count],
        b"planrun: cannot write standard output",
    )
}

// What failed has been told, and the program ends as it does otherwise.
fn main(rt: HostRuntime) {
    let _ = run(&rt, &mut rt.stdin(), &mut rt.stdout());
}
