//! A worked row: what the top call is run on, and what is expected of it.
ghost use Rattle.std.specs.Prelude.{◌≤◌, IfOk};

use crate::call::{CHUNK, Call, ROOM};
use crate::error::RowsError;
use crate::texts::{first_difference, push_piece};
use outside_io::{MemInputs, MemSink, NamedText};
use serde_json::Value;
use std::alloc::Global;
use std::fs;
use std::rt::Files;

/// A row.
#[derive(Drop)]
pub struct Row<'a> {
    pub name: &'a str,
    pub call: Call,
    pub expected: Expected<'a>,
}

/// How a run is expected to end.
#[derive(Drop)]
pub struct Expected<'a> {
    code: u64,
    out: &'a str,
    note: &'a str,
}

/// What differs first from what is expected.
#[derive(Drop)]
pub enum Difference {
    /// The status has this code.
    Status(u8),
    /// The output, at this place.
    Out(usize),
    /// The message, at this place.
    Note(usize),
}

impl Expected<'_> {
    /// What differs first from a run that ended with this status code, output and message, or None
    /// where it ended as expected.
    pub fn difference(&self, code: u8, out: &[u8], note: &[u8]) -> Option<Difference> {
        if u64::from(code) != self.code {
            return Some(Difference::Status(code));
        }
        if let Some(at) = first_difference(self.out.as_bytes(), out) {
            return Some(Difference::Out(at));
        }
        match first_difference(self.note.as_bytes(), note) {
            Some(at) => Some(Difference::Note(at)),
            None => None,
        }
    }
}

/// The member of this name.
pub fn member<'v>(value: &'v Value, name: &'static str) -> Result<&'v Value, RowsError> {
    match value.get(name) {
        Some(found) => Ok(found),
        None => Err(RowsError::Member(name)),
    }
}

// The text that a value is.
fn text_of<'v>(value: &'v Value, name: &'static str) -> Result<&'v str, RowsError> {
    match value.as_str() {
        Some(text) => Ok(text),
        None => Err(RowsError::Member(name)),
    }
}

/// The text that the member of this name is.
pub fn text_in<'v>(value: &'v Value, name: &'static str) -> Result<&'v str, RowsError> {
    text_of(member(value, name)?, name)
}

/// The items of the list that a value is.
pub fn list_of<'v>(value: &'v Value, name: &'static str) -> Result<&'v [Value], RowsError> {
    match value.as_array() {
        Some(items) => Ok(items.as_slice()),
        None => Err(RowsError::Member(name)),
    }
}

// The number that a value is.
fn number_of(value: &Value, name: &'static str) -> Result<u64, RowsError> {
    match value.as_u64() {
        Some(number) => Ok(number),
        None => Err(RowsError::Member(name)),
    }
}

/// The row of this name.
pub fn find<'v>(rows: &'v [Value], name: &'static str) -> Result<&'v Value, RowsError> {
    for row in rows.iter() {
        if text_in(row, "name")? == name {
            return Ok(row);
        }
    }
    Err(RowsError::Member(name))
}

// How many bytes a call moves at most, by the member of this name.
fn chunk_in(value: &Value, name: &'static str) -> Result<usize, RowsError>
    ensures { IfOk result (λ chunk. 1 ≤ chunk) }
{
    let chunk = match value.get(name) {
        Some(found) => number_of(found, name)?,
        None => return Ok(CHUNK),
    };
    if chunk == 0 {
        return Err(RowsError::Member(name));
    }
    Ok(chunk as usize)
}

// The calls that fail, by the member of this name: none without it.
fn fails_in(alloc: Global, value: &Value, name: &'static str) -> Result<Vec<u64>, RowsError> {
    let mut fails = Vec::new(alloc);
    if let Some(listed) = value.get(name) {
        for call in list_of(listed, name)?.iter() {
            fails.push(number_of(call, name)?)?;
        }
    }
    Ok(fails)
}

// The words of a row.
fn words_in(alloc: Global, value: &Value) -> Result<Vec<String>, RowsError> {
    let mut words = Vec::new(alloc);
    for word in list_of(member(value, "words")?, "words")?.iter() {
        words.push(String::from_str(alloc, text_of(word, "words")?)?)?;
    }
    Ok(words)
}

// The bytes that pieces are, joined: each is a list of how often its text is repeated, and the
// text.
fn joined(alloc: Global, pieces: &[Value]) -> Result<Vec<u8>, RowsError> {
    let mut bytes = Vec::new(alloc);
    for piece in pieces.iter() {
        if let [count, text] = list_of(piece, "piece")? {
            let count = number_of(count, "piece")? as usize;
            push_piece(alloc, &mut bytes, count, text_of(text, "piece")?)?;
        } else {
            return Err(RowsError::Member("piece"));
        }
    }
    Ok(bytes)
}

// The bytes that a value stands for: a text, a list of pieces, or the name of a file.
fn bytes_of<R: Files + AllocGlobal>(rt: &R, value: &Value) -> Result<Vec<u8>, RowsError> {
    match value {
        Value::String(text) => Ok(text.as_bytes().to_vec(rt.alloc())?),
        Value::Array(pieces) => joined(rt.alloc(), pieces),
        _ => Ok(fs::read(rt, text_in(value, "file")?)?),
    }
}

// The texts of a row.
fn texts_in<R: Files + AllocGlobal>(rt: &R, value: &Value) -> Result<Vec<NamedText>, RowsError> {
    let mut texts = Vec::new(rt.alloc());
    let named = match member(value, "texts")?.as_object() {
        Some(named) => named,
        None => return Err(RowsError::Member("texts")),
    };
    for (name, text) in named.iter() {
        let name = name.clone()?;
        texts.push(NamedText::new(name, bytes_of(rt, text)?))?;
    }
    Ok(texts)
}

// The inputs of a row.
fn inputs_in<R: Files + AllocGlobal>(rt: &R, value: &Value) -> Result<MemInputs, RowsError> {
    let texts = texts_in(rt, value)?;
    let chunk = match chunk_in(value, "chunk") {
        Ok(chunk) => chunk,
        Err(error) => return Err(error),
    };
    Ok(MemInputs::new(texts, chunk, fails_in(rt.alloc(), value, "fails")?))
}

// A sink whose calls are planned by the members of these names.
fn sink_in(
    alloc: Global,
    value: &Value,
    chunk: &'static str,
    fails: &'static str,
) -> Result<MemSink, RowsError> {
    let chunk = match chunk_in(value, chunk) {
        Ok(chunk) => chunk,
        Err(error) => return Err(error),
    };
    Ok(MemSink::new(alloc, ROOM, chunk, fails_in(alloc, value, fails)?)?)
}

/// The row that a value is.
pub fn read<'v, R: Files + AllocGlobal>(rt: &R, value: &'v Value) -> Result<Row<'v>, RowsError> {
    let alloc = rt.alloc();
    let call = Call {
        words: words_in(alloc, value)?,
        inputs: inputs_in(rt, value)?,
        out: sink_in(alloc, value, "out_chunk", "out_fails")?,
        note: sink_in(alloc, value, "note_chunk", "note_fails")?,
    };
    let expected = Expected {
        code: number_of(member(value, "status")?, "status")?,
        out: text_in(value, "out")?,
        note: text_in(value, "note")?,
    };
    Ok(Row {
        name: text_in(value, "name")?,
        call,
        expected,
    })
}
