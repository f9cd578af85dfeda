//! Each public call of the crates that cut arcs, lay the layers of chains, replace chains, write
//! certificates and judge them, and of those that build, dissolve and rank, once, on maps of few
//! positions. The tests of those crates stand here together:
//! a crate with tests of its own is proved twice.
#![tactic(auto)]

mod maps;

pub use maps::{bump_beside_edge, one_arc};

#[cfg(test)]
mod borders;
#[cfg(test)]
mod built;
#[cfg(test)]
mod certificates;
#[cfg(test)]
mod checker;
#[cfg(test)]
mod cuts;
#[cfg(test)]
mod features;
#[cfg(test)]
mod graph;
#[cfg(test)]
mod parts;
#[cfg(test)]
mod ranks;
#[cfg(test)]
mod run;
