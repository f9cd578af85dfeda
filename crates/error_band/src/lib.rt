//! Whether the run between two vertices of a chain stays within the bound of the segment between
//! them.
#![tactic(auto)]

mod run;

pub use run::first_far;
