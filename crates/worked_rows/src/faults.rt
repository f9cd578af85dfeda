//! Runs on torn texts, and runs in which one call fails: each call in turn.

use crate::call::{Ended, ended_on, run_call};
use outside_io::{MemInputs, MemSink};
use row_reader::{Call, ROOM, RowsError, add_text};
use std::alloc::Global;

// The words of each run, and the text that they name.
const LINE: &str = "simplify 1 map.json";

const FILE: &str = "map.json";

// How many bytes a call moves at most where calls fail.
const SMALL: usize = 64;

// No run over the text has as many calls.
const MOST_CALLS: u64 = 1000;

// Whether a text that is cut short is refused at its end.
fn is_refused_at_end(alloc: Global, prefix: &[u8]) -> Result<bool, RowsError> {
    let length = prefix.len();
    let note = format!(in alloc; "text is not JSON at {length}\n")?;
    let ended = ended_on(alloc, LINE, FILE, prefix)?;
    Ok(ended.is(3, b"".as_slice(), note.as_bytes()))
}

/// How many proper prefixes the text has, where each is refused at its end.
pub fn every_prefix(alloc: Global, text: &str) -> Result<Option<usize>, RowsError> {
    let bytes = text.as_bytes();
    for length in 0..bytes.len() {
        if !is_refused_at_end(alloc, &bytes[..length])? {
            return Ok(None);
        }
    }
    Ok(Some(bytes.len()))
}

// What a run over the text leaves whose call `failing` of the inputs fails.
fn ended_with_failing_read(alloc: Global, text: &[u8], failing: u64) -> Result<Ended, RowsError> {
    let mut texts = Vec::new(alloc);
    add_text(alloc, &mut texts, FILE, text)?;
    let mut call = Call::new(alloc, LINE, Vec::new(alloc))?;
    call.inputs = MemInputs::new(texts, SMALL, [failing].to_vec(alloc)?);
    Ok(run_call(alloc, call))
}

// What a run over the text leaves whose write `failing` to the output fails.
fn ended_with_failing_write(alloc: Global, text: &[u8], failing: u64) -> Result<Ended, RowsError> {
    let mut texts = Vec::new(alloc);
    add_text(alloc, &mut texts, FILE, text)?;
    let mut call = Call::new(alloc, LINE, texts)?;
    call.out = MemSink::new(alloc, ROOM, SMALL, [failing].to_vec(alloc)?)?;
    Ok(run_call(alloc, call))
}

/// How many calls of the inputs a run over the text makes, where each call that fails ends the run
/// with nothing written, and the run in which none fails writes `out`.
pub fn every_failing_read(
    alloc: Global,
    text: &str,
    out: &str,
) -> Result<Option<usize>, RowsError> {
    for failing in 0..MOST_CALLS {
        let ended = ended_with_failing_read(alloc, text.as_bytes(), failing)?;
        if ended.is(0, out.as_bytes(), b"".as_slice()) {
            return Ok(Some(failing as usize));
        }
        if !ended.is(8, b"".as_slice(), b"reading failed\n".as_slice()) {
            return Ok(None);
        }
    }
    Ok(None)
}

/// How many writes a run over the text makes, where each write that fails ends the run with what
/// was written before it, and the run in which none fails writes `out`.
pub fn every_failing_write(
    alloc: Global,
    text: &str,
    out: &str,
) -> Result<Option<usize>, RowsError> {
    let out = out.as_bytes();
    for failing in 0..MOST_CALLS {
        let ended = ended_with_failing_write(alloc, text.as_bytes(), failing)?;
        if ended.is(0, out, b"".as_slice()) {
            return Ok(Some(failing as usize));
        }
        let written = out.len().min(SMALL * failing as usize);
        if !ended.is(9, &out[..written], b"writing failed\n".as_slice()) {
            return Ok(None);
        }
    }
    Ok(None)
}
