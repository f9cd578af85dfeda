//! A topology from rings: where neighbours share positions they share arcs.
//!
//! A ring is a cyclic list of positions here: of equal neighbours it has one, and the closing
//! position is left out. Rings are cut at their junctions, the positions that they do not all pass
//! in one way, and each piece is one arc, however many rings go along it.
#![tactic(auto)]

mod arcs;
mod cut;
mod cyclic;
mod junctions;
mod polygons;
mod rings;
mod step;
mod topology;

pub use rings::Rings;
pub use topology::{Built, build};
