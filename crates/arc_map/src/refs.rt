//! The names of edges and chains.
use grid_exact::Frame;

/// An edge of a map: it joins the positions `at` and `at + 1` of arc number `arc`. Edges are
/// ordered by arc, then by `at`.
#[derive(Clone, Copy, Debug, PartialEq, Eq, PartialOrd, Ord)]
pub struct EdgeRef {
    /// the number of the arc
    pub arc: u32,
    /// the place of the edge's first position in the arc, from 0
    pub at: u32,
}

/// A chain of a map: the positions from `from` to `to`, both of them, of arc number `arc`.
#[derive(Clone, Copy, PartialEq, Eq)]
pub struct ChainRef {
    /// the number of the arc
    pub arc: u32,
    /// the place of the chain's first position in the arc, from 0
    pub from: u32,
    /// the place of its last position
    pub to: u32,
    /// the frame in which the chain runs strictly one way
    pub frame: Frame,
}
