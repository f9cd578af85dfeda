//! What the top call is run on, over memory.

use crate::error::RowsError;
use outside_io::{MemInputs, MemSink, NamedText};
use std::alloc::Global;

/// How many bytes a call of an input or a sink moves at most, where nothing else is said.
pub const CHUNK: usize = 1048576;

/// How many bytes a sink has room for.
pub const ROOM: usize = 16777216;

/// What the top call is run on.
#[derive(Drop)]
pub struct Call {
    pub words: Vec<String>,
    pub inputs: MemInputs,
    pub out: MemSink,
    pub note: MemSink,
}

impl Call {
    /// The words of the line over the texts, with calls none of which fails.
    pub fn new(alloc: Global, line: &str, texts: Vec<NamedText>) -> Result<Call, RowsError> {
        Ok(Call {
            words: words_of(alloc, line)?,
            inputs: MemInputs::new(texts, CHUNK, Vec::new(alloc)),
            out: MemSink::new(alloc, ROOM, CHUNK, Vec::new(alloc))?,
            note: MemSink::new(alloc, ROOM, CHUNK, Vec::new(alloc))?,
        })
    }
}

/// The words between the spaces of a line.
pub fn words_of(alloc: Global, line: &str) -> Result<Vec<String>, RowsError> {
    let mut words = Vec::new(alloc);
    for word in line.split(' ') {
        words.push(String::from_str(alloc, word)?)?;
    }
    Ok(words)
}

/// Adds a text under a name.
pub fn add_text(
    alloc: Global,
    texts: &mut Vec<NamedText>,
    name: &str,
    text: &[u8],
) -> Result<(), RowsError> {
    let name = String::from_str(alloc, name)?;
    texts.push(NamedText::new(name, text.to_vec(alloc)?))?;
    Ok(())
}
