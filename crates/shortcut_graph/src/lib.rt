//! The shortcuts of a chain, tested as far as its best path needs them.
#![tactic(auto)]

mod corridor;
mod course;
mod doubles;
mod hints;
mod layers;
mod pairs;
mod reach;
mod ruler;

pub use layers::lay;
pub use ruler::Ruler;
