//! Why the cases could not be judged.

use cert_format::CertError;
use json_scan::ScanError;
use std::alloc::AllocError;
use std::io;
use thiserror::Error;
use topo_reader::ReadFault;

/// Why the cases could not be read, judged or reported.
#[derive(Debug, Drop, Error)]
pub enum CasesError {
    /// The file could not be read, or a line could not be printed.
    #[error("reading or printing failed: {0}")]
    Outside(#[from] io::Error),
    /// A line of the file is none of the three kinds, or not spelled as its kind wants.
    #[error("a line is not as it should be")]
    Line,
    /// A map is no JSON text.
    #[error("a map is no JSON text")]
    Json(#[from] ScanError),
    /// A map is no topology.
    #[error("a map is no topology")]
    Topology(#[from] ReadFault),
    /// The weights take a position of a map off the grid.
    #[error("the weights take a position off the grid")]
    OffWeights,
    /// There is no memory.
    #[error("no memory")]
    Memory(#[from(alloc)] AllocError),
}

impl From<arc_map::NoMemory> for CasesError {
    fn from(_: arc_map::NoMemory) -> Self {
        CasesError::Memory(AllocError)
    }
}
