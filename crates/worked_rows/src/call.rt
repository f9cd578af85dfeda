//! A run of the top call over memory.

use outside_io::MemSink;
use row_reader::{Call, Difference, Expected, RowsError, add_text};
use std::alloc::Global;
use top_call::{Status, run};

/// What a run left.
#[derive(Drop)]
pub struct Ended {
    pub status: Status,
    out: MemSink,
    note: MemSink,
}

/// Runs the top call.
pub fn run_call(alloc: Global, call: Call) -> Ended {
    let Call {
        words,
        mut inputs,
        mut out,
        mut note,
    } = call;
    let status = run(alloc, &words, &mut inputs, &mut out, &mut note);
    Ended { status, out, note }
}

impl Ended {
    /// What was written to the output.
    pub fn out(&self) -> &[u8] {
        self.out.written()
    }

    /// What was written as the message.
    pub fn note(&self) -> &[u8] {
        self.note.written()
    }

    /// Whether the run ended with this status code, output and message.
    pub fn is(&self, code: u8, out: &[u8], note: &[u8]) -> bool {
        self.status.code() == code && self.out() == out && self.note() == note
    }

    /// Whether the whole output was written.
    pub fn is_done(&self) -> bool {
        self.status.code() == Status::Done.code()
    }

    /// What differs first from what is expected, or None where the run ended so.
    pub fn difference(&self, expected: &Expected<'_>) -> Option<Difference> {
        expected.difference(self.status.code(), self.out(), self.note())
    }
}

/// What the words of the line leave, run over one text.
pub fn ended_on(alloc: Global, line: &str, name: &str, text: &[u8]) -> Result<Ended, RowsError> {
    let mut texts = Vec::new(alloc);
    add_text(alloc, &mut texts, name, text)?;
    Ok(run_call(alloc, Call::new(alloc, line, texts)?))
}
