//! What stands beside a chain, and which shortcuts leave it on its side.
#![tactic(auto)]

mod beside;
mod gather;
mod laws;
mod limits;
mod strays;
mod wedge;

pub use beside::Beside;
pub use laws::consistency_by_edges;
pub use wedge::Wedge;
