//! Laws on two segments, each as the contract of a function that does nothing.
ghost use Rattle.segment_tests.specs.Laws.{ApartEdgesAreOrdered, OrderedEdgesAreApart};
ghost use Rattle.segment_tests.specs.Laws.{SegmentsMeetBySigns};

/// Two segments have a common point exactly where they cross by the signs of four areas, or an end
/// of one lies on the other.
pub fn segments_meet_by_signs()
    ensures { SegmentsMeetBySigns }
{}

/// Two edges that run in one direction, whose spans meet, and that have no common point: one is
/// above the other at both ends of the span that they share.
pub fn apart_edges_are_ordered()
    ensures { ApartEdgesAreOrdered }
{}

/// Two edges, one of which is above the other at both ends of the span that they share, have no
/// common point.
pub fn ordered_edges_are_apart()
    ensures { OrderedEdgesAreApart }
{}
