//! Makes coverages of cells with wavy borders, and of towns close to them, to try the tool on.
#![tactic(auto)]

mod lattice;
mod laws;
mod shifts;

pub use lattice::make;
pub use laws::{made_maps_are_arranged, made_maps_are_maps, made_text_reads};
