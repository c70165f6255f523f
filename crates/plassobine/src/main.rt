// Reads one system from standard input and prints the outcome: one call, one write. Where something could not be read or written, a line
// on standard error says so, and after a failed read nothing is printed.
#![tactic(auto)]

ghost use Rattle.std.specs.Prelude.{◌≡◌, length, IfSome, OnOk};
ghost use Rattle.std.specs.Io.KnownBytes.{Appends};
ghost use Rattle.matrix.specs.Program.{program};

use std::io::{Read, Write};
use std::{fmt, io};

// What could not be done.
#[derive(Clone, Copy)]
enum Failure {
    Reading,
    Writing,
}

impl fmt::Display for Failure {
    fn fmt<W: fmt::Write>(&self, f: &mut fmt::Formatter<W>) -> fmt::Result {
        f.write_str(match self {
            Failure::Reading => "standard input could not be read",
            Failure::Writing => "standard output could not be written",
        })
    }
}

// Room for so many bytes.
fn room<const N: usize>() -> [u8; N]
    ensures { N ≡ length result }
{
    [0; N]
}

// The reply to a text, written. The page is made where the text is known: a function has the room of its tables from its beginning on, and this
// takes that in which the rest of a longer text was read.
fn reply<W: Write>(writer: &mut W, text: &[u8]) -> Result<(), Failure>
    ensures { OnOk result (Appends (W.contents writer.old) (W.contents writer.new) (program text.now)) }
{
    let mut page = room::<98304>();
    let size = answering::answer(text, &mut page);
    if writer.write_all(&page[..size]).is_err() {
        return Err(Failure::Writing);
    }
    Ok(())
}

// The reply to what is read. One byte more than the longest text is kept, so that a longer one is seen.
fn run<R: Read, W: Write>(reader: &mut R, writer: &mut W) -> Result<(), Failure>
    ensures { OnOk result (IfSome (R.remaining reader.old) (λ input. Appends (W.contents writer.old) (W.contents writer.new) (program input))) }
{
    let mut text = room::<65537>();
    let Ok(count) = streams::read_text(reader, &mut text) else {
        return Err(Failure::Reading);
    };
    reply(writer, &text[..count])
}

fn main(rt: HostRuntime) {
    if let Err(failure) = run(&mut rt.stdin(), &mut io::writer(&rt)) {
        let _ = eprintln!(rt; "plassobine: {failure}");
    }
}
