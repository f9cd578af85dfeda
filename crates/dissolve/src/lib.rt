//! The border of chosen polygons of a map: closed lines of the arcs that they name an odd number of
//! times in sum.
#![tactic(auto)]

mod laws;
mod odd;
mod rings;
mod step;
mod unused;
mod walk;

pub use laws::border_is_one;
pub use rings::Rings;
pub use walk::border;
