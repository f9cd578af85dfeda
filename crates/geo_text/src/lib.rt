//! The text of the topology that was built from GeoJSON (RFC 7946).
#![tactic(auto)]

mod entries;
mod features;
mod geometries;
mod laws;
mod lists;
mod lookups;
mod shape;
mod text;
mod writer;

pub use laws::built_text_reads;
pub use text::built_text;
