//! Whether a map is arranged: no two of its edges clash, and no feature point lies on an edge; and
//! which arcs are held where it is not.
#![tactic(auto)]

mod arranged;
mod clashes;
mod meeting;
mod partly;

pub use arranged::Arranged;
pub use clashes::{edges_clash, town_is_on};
pub use meeting::{CheckError, check, check_over, check_towns};
pub use partly::{Partly, hold, hold_over};
