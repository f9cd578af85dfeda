//! Laws over the definitions alone, each as the contract of a function that does nothing.
ghost use Rattle.chain_side.specs.Laws.{OneEdgeSpans, OutsideIsEven, SidesTellCrossings};

/// A point on no edge of the closed walk along a run and back has the same side of the run and of
/// the segment between its ends exactly where the walk is crossed from it an even number of times,
/// in either frame.
pub fn sides_tell_crossings()
    ensures { SidesTellCrossings }
{}

/// A point strictly between the ends of a monotone run, and on no edge of it, is spanned by just
/// one edge of it.
pub fn one_edge_spans()
    ensures { OneEdgeSpans }
{}

/// A point outside the span of a monotone run is on no edge of the closed walk along the run and
/// back, and the walk is crossed from it an even number of times.
pub fn outside_is_even()
    ensures { OutsideIsEven }
{}
