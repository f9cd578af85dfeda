//! The line that tells a verdict.
ghost use Rattle.std.specs.Prelude.{◌≡◌, ◌++◌, IfOk, codes, decimal};
ghost use Rattle.top_call.specs.Parts.{spelled};
ghost use Rattle.top_call.specs.Verdicts.{reason_line, verdict_line};

use crate::parts::{END, Line, NONE, Part, line, numbered, plain, text_of};
use cert_checker::{Reason, Verdict};
use std::alloc::{AllocError, Global};

// A line that speaks of an entry of the certificate.
fn entry_line(entry: u32, words: &'static str) -> Line
    ensures { spelled result ≡ codes "no: chain " ++ decimal entry ++ words.entry.now }
{
    line([
        Part::Words("no: chain "),
        Part::Number(entry),
        Part::Words(words),
        NONE,
        NONE,
    ])
}

// A line that speaks of a step in an entry of the certificate.
fn step_line(entry: u32, words: &'static str, from: u32, to: u32) -> Line
    ensures { spelled result ≡ codes "no: chain " ++ decimal entry ++ words.entry.now
        ++ decimal «from» ++ codes " " ++ decimal to ++ codes "\n" }
{
    [
        Part::Words("no: chain "),
        Part::Number(entry),
        Part::Words(words),
        Part::Number(from),
        Part::Words(" "),
        Part::Number(to),
        END,
        NONE,
        NONE,
    ]
}

// The line that tells a reason.
fn reason_line(reason: Reason) -> Line
    ensures { spelled result ≡ reason_line reason }
{
    match reason {
        Reason::Form => plain("no: form\n"),
        Reason::Version => plain("no: version\n"),
        Reason::Bound => plain("no: bound\n"),
        Reason::Weights => plain("no: weights\n"),
        Reason::Held(at) => numbered("no: held differs at ", at),
        Reason::Chains(at) => numbered("no: chains differ at ", at),
        Reason::Kept(entry) => entry_line(entry, " kept\n"),
        Reason::Path(entry, from, to) => step_line(entry, " may not step ", from, to),
        Reason::Ends(entry) => entry_line(entry, " ends\n"),
        Reason::Layers(entry, from, to) => step_line(entry, " layers allow step ", from, to),
        Reason::Text(at) => numbered("no: text differs at ", at),
    }
}

// The line that tells a verdict, in parts.
fn line_of(verdict: Verdict) -> Line
    ensures { spelled result ≡ verdict_line verdict }
{
    match verdict {
        Verdict::Yes => plain("yes\n"),
        Verdict::No(reason) => reason_line(reason),
    }
}

/// The line that tells a verdict, with its line feed. The only error is want of memory.
pub fn verdict_text(alloc: Global, verdict: Verdict) -> Result<Vec<u8>, AllocError>
    ensures { IfOk result (λ text. text.items ≡ verdict_line verdict) }
{
    text_of(alloc, &line_of(verdict))
}
