//! Laws on crossings and on views of the plane, each as the contract of a function that does
//! nothing.
ghost use Rattle.grid_exact.specs.Laws.{ArePlaneViews, ClosedWalksAgree};

/// From a point that is on none of its edges, a closed walk is crossed and crossed sideways with
/// the same parity.
pub fn closed_walks_agree()
    ensures { ClosedWalksAgree }
{}

/// Exchanged axes and a half turn keep common points, points on segments and the parity of closed
/// walks, alone and one after another.
pub fn plane_has_views()
    ensures { ArePlaneViews }
{}
