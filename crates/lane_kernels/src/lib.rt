//! Distance and side tests over many points, four at a time.
#![tactic(auto)]

mod lanes;
mod plain;
mod side;
mod within;

pub use plain::point_at;
pub use side::{Hand, first_off_side};
pub use within::first_beyond;

#[cfg(test)]
mod tests;
