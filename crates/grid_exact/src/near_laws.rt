//! Laws on points near a segment, each as the contract of a function that does nothing.
ghost use Rattle.grid_exact.specs.NearLaws.{NearIsWithinOfWeighted, NearByOneIsWithin};
ghost use Rattle.grid_exact.specs.NearLaws.{BesideIsWithinByThreshold};

/// To be near a segment with weights is to be within the bound of it at the weighted points.
pub fn near_is_within_of_weighted()
    ensures { NearIsWithinOfWeighted }
{}

/// With both weights 1 to be near a segment is to be within the bound of it.
pub fn near_by_one_is_within()
    ensures { NearByOneIsWithin }
{}

/// A point beside a segment is within the bound of it exactly where its area with the segment is in
/// size at most the threshold of the segment and the bound.
pub fn beside_is_within_by_threshold()
    ensures { BesideIsWithinByThreshold }
{}
