//! Lines in parts: words, and numbers in decimal.
ghost use Rattle.std.specs.Prelude.{◌≡◌, ◌++◌, IsTrue, OnOk, OnErr, IfOk, codes, decimal};
ghost use Rattle.outside_io.specs.Causes.{HasCause};
ghost use Rattle.outside_io.specs.Texts.{AppendsPrefix};
ghost use Rattle.top_call.specs.Parts.{part_text, spelled};

use itoa::Buffer;
use outside_io::{Failed, Sink, write_all};
use std::alloc::{AllocError, Global};

/// A part of a line.
#[derive(Clone, Copy)]
pub enum Part {
    Words(&'static str),
    Number(u32),
}

/// The parts of a line, with empty words behind the last.
pub type Line = [Part; 9];

/// Words that add nothing.
pub const NONE: Part = Part::Words("");

/// The end of a line.
pub const END: Part = Part::Words("\n");

/// A line of at most five parts.
pub fn line(parts: [Part; 5]) -> Line
    ensures { spelled result ≡ spelled parts }
{
    let [a, b, c, d, e] = parts;
    [a, b, c, d, e, NONE, NONE, NONE, NONE]
}

/// A line of words alone, with its line feed in them.
pub fn plain(words: &'static str) -> Line
    ensures { spelled result ≡ words.entry.now }
{
    line([Part::Words(words), NONE, NONE, NONE, NONE])
}

/// A line of words that end with a number.
pub fn numbered(words: &'static str, number: u32) -> Line
    ensures { spelled result ≡ words.entry.now ++ decimal number ++ codes "\n" }
{
    line([Part::Words(words), Part::Number(number), END, NONE, NONE])
}

fn write_part<S: Sink>(sink: &mut S, part: &Part) -> Result<(), Failed>
    ensures ok { IsTrue S.tells → OnOk result
        (S.written sink.new ≡ S.written sink.old ++ part_text part.now) }
    ensures failed { IsTrue S.tells
        → OnErr result (AppendsPrefix (S.written sink.old) (S.written sink.new)
        (part_text part.now)) }
    ensures cause { HasCause (S.faults sink.old) (S.faults sink.new) result }
{
    match part {
        Part::Words(words) => write_all(sink, words.as_bytes()),
        Part::Number(number) => {
            let mut buffer = Buffer::new();
            write_all(sink, buffer.format(*number).as_bytes())
        }
    }
}

/// Writes the parts one after the other. It takes no memory. `Failed` says that a write failed, and
/// then a prefix of the line was written.
pub fn write_parts<S: Sink>(sink: &mut S, parts: &[Part]) -> Result<(), Failed>
    ensures ok { IsTrue S.tells → OnOk result
        (S.written sink.new ≡ S.written sink.old ++ spelled parts.now) }
    ensures failed { IsTrue S.tells
        → OnErr result (AppendsPrefix (S.written sink.old) (S.written sink.new)
        (spelled parts.now)) }
    ensures cause { HasCause (S.faults sink.old) (S.faults sink.new) result }
{
    for part in parts {
        write_part(sink, part)?;
    }
    Ok(())
}

fn push_part(text: &mut Vec<u8>, part: &Part) -> Result<(), AllocError>
    ensures { OnOk result (text.new.items ≡ text.old.items ++ part_text part.now) }
{
    match part {
        Part::Words(words) => text.extend_from_slice(words.as_bytes()),
        Part::Number(number) => {
            let mut buffer = Buffer::new();
            text.extend_from_slice(buffer.format(*number).as_bytes())
        }
    }
}

/// The parts one after the other. The only error is want of memory.
pub fn text_of(alloc: Global, parts: &[Part]) -> Result<Vec<u8>, AllocError>
    ensures { IfOk result (λ text. text.items ≡ spelled parts.now) }
{
    let mut text = Vec::new(alloc);
    for part in parts {
        push_part(&mut text, part)?;
    }
    Ok(text)
}
