//! Each public call of the crates that read texts, measure, index, look beside chains, test
//! arrangement and write texts, once, on maps of few positions. The tests of those crates stand
//! here together: a crate with tests of its own is proved twice.
#![tactic(auto)]

mod maps;

pub use maps::two_edges;

#[cfg(test)]
mod arrangement;
#[cfg(test)]
mod bands;
#[cfg(test)]
mod chains;
#[cfg(test)]
mod cones;
#[cfg(test)]
mod index;
#[cfg(test)]
mod inputs;
#[cfg(test)]
mod layers;
#[cfg(test)]
mod meetings;
#[cfg(test)]
mod near;
#[cfg(test)]
mod numbers;
#[cfg(test)]
mod parts;
#[cfg(test)]
mod records;
#[cfg(test)]
mod sides;
#[cfg(test)]
mod sweeps;
#[cfg(test)]
mod texts;
#[cfg(test)]
mod topologies;
#[cfg(test)]
mod values;
