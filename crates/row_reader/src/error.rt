//! Why the rows could not be run.

use std::alloc::AllocError;
use std::io;
use thiserror::Error;

/// Why the rows could not be read, run or reported.
#[derive(Debug, Drop, Error)]
pub enum RowsError {
    /// A file could not be read, or a line could not be printed.
    #[error("reading or printing failed: {0}")]
    Outside(#[from] io::Error),
    /// The file of the rows is no JSON text.
    #[error("the rows are no JSON text: {0}")]
    Json(#[from] serde_json::Error),
    /// A row has no such member, or not of the kind that is wanted.
    #[error("a row has no {0}, or not of the kind that is wanted")]
    Member(&'static str),
    /// There is no memory.
    #[error("no memory")]
    Memory(#[from(alloc)] AllocError),
}
