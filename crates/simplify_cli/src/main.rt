//! The command-line tool: what the words ask for, over files and the standard streams.
#![tactic(auto)]

mod outside;

use outside::{StdInputs, StdSink};
use std::process::ExitCode;
use std::rt::Env;
use std::{env, io};
use top_call::{Status, run};

// The number with which the program ends where the system gives no words. No status has it.
const NO_WORDS: u8 = 16;

// The words behind the program's name.
fn words_of<R: Env + AllocGlobal>(rt: &R) -> io::Result<Vec<String>> {
    let mut words = Vec::new(rt.alloc());
    for word in env::args(rt)?.skip(1) {
        words.push(word)?;
    }
    Ok(words)
}

fn main(rt: HostRuntime) -> ExitCode {
    let words = match words_of(&rt) {
        Ok(words) => words,
        Err(error) if error.kind() == io::ErrorKind::OutOfMemory => {
            return ExitCode::from(Status::NoMemory.code());
        }
        Err(_) => return ExitCode::from(NO_WORDS),
    };
    let mut inputs = StdInputs::new(&rt);
    let mut out = StdSink::new(rt.stdout());
    let mut note = StdSink::new(rt.stderr());
    let status = run(rt.alloc(), &words, &mut inputs, &mut out, &mut note);
    ExitCode::from(status.code())
}
