//! The check of a map by a plane sweep: whether edges clash, found in one pass over the map in the
//! order of places.
#![tactic(auto)]

mod active;
mod check;
mod clashes;
mod crowds;
mod places;
mod samples;
mod spans;
mod towns;
mod walk;

pub use check::{Swept, check_by_sweep, sweep};
pub use crowds::{check_map, hold_map};
