//! On which side of a chain that runs strictly one way a point lies.
#![tactic(auto)]

mod decide;
mod laws;
mod search;
mod sides;

pub use decide::side;
pub use laws::{one_edge_spans, outside_is_even, sides_tell_crossings};
pub use search::{comes_before, edge_at};
pub use sides::Side;
