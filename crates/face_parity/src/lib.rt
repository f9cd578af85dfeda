//! In which polygons of a map a point lies, by the parity of the edges that are crossed from it.
#![tactic(auto)]

mod bounds;
mod cells;
mod crossings;
mod faces;
mod floors;
mod namings;
mod runs;
mod tally;
mod text;

pub use crossings::{crossed, inside};
pub use faces::FaceScratch;
