//! Which points of a map stand in a box, and which edges come near one another or a feature point.
#![tactic(auto)]

mod area;
mod bands;
mod dealing;
mod edges;
mod entries;
mod grid;
mod index;
mod ordering;
mod slabs;
mod sweep;
mod things;
mod walk;

pub use edges::{EdgeIndex, PairWalk, TownWalk};
pub use grid::offset;
pub use index::{Index, Item, Owner};
pub use slabs::{EdgeSlabs, EdgeWalk};
pub use walk::Walk;
