//! The four places of a point seen from a chain.

/// Where a point lies, seen from a chain. Above is where y is greater in the frame `Plain`, and
/// where x is greater in the frame `Turned`.
#[derive(Clone, Copy, PartialEq, Eq, Debug)]
pub enum Side {
    /// above the edge that spans the point
    Above,
    /// on an edge
    On,
    /// below the edge that spans the point
    Below,
    /// before both ends of the chain, or after both, in the order of the frame
    Outside,
}
