//! Several levels of a map at once: each position has the rank of the last level that keeps it.
#![tactic(auto)]

mod grid;
mod laws;
mod level;
mod places;
mod ranks;
mod text;

pub use laws::{levels_are_one, ranks_are_one, run_keeps_places};
pub use level::rank_all;
pub use ranks::Ranks;
