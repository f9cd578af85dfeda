//! A law over the definitions alone: a function that does nothing, with the law as its contract.
ghost use Rattle.side_wedge.specs.Laws.{ConsistencyByEdges};

/// A pair is consistent with each feature point and each vertex of another chain exactly where it
/// is with each feature point and each end of an edge of another chain, if each chain has an edge.
pub fn consistency_by_edges()
    ensures { ConsistencyByEdges }
{}
