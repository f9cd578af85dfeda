//! Writes the arcs of a map as JSON, and puts them into the text that the map was read from.
#![tactic(auto)]

mod arcs;
mod laws;
mod splicing;
mod texts;

pub use arcs::arcs_text;
pub use laws::spliced_reads_back;
pub use splicing::splice;
pub use texts::{write_number, write_position};
