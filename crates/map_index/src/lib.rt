//! A map at work, with its feature points and vertices by where they stand, and its chains by their
//! ends.
#![tactic(auto)]

mod index;
mod indexed;
mod listing;
mod owners;

pub use indexed::IndexedMap;
pub use owners::is_other;
