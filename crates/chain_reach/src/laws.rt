//! Laws over the definitions alone: functions that do nothing, with a law each as their contract.
ghost use Rattle.chain_reach.specs.Laws.{BoxesFindReach, InReachOrOut, OnlyReachCounts};
ghost use Rattle.chain_reach.specs.Laws.{OnlyReachCountsOfChain, OutOfHullIsEven};
ghost use Rattle.chain_reach.specs.Laws.{OutOfHullKeepsSide, OutOfReachKeepsSide, OutOfReachIsEven};
ghost use Rattle.chain_reach.specs.Laws.{ReachIsInSteps, OnlyCloseCounts, OnlyCloseCountsOfChain};
ghost use Rattle.chain_reach.specs.Laws.{CloseIsInReach, CloseIsInSteps};

/// A place out of the convex hull of a run does not change sides where the run is cut short, in
/// either frame.
pub fn out_of_hull_is_even()
    ensures { OutOfHullIsEven }
{}

/// Where a run is within the bound of the segment between its ends, a place out of the box of each
/// of its edges, grown by twice the bound, does not change sides, in either frame and with any
/// weights.
pub fn out_of_reach_is_even()
    ensures { OutOfReachIsEven }
{}

/// Each place is in reach of a walk or out of reach of it.
pub fn in_reach_or_out()
    ensures { InReachOrOut }
{}

/// Of a pair of a chain with what it skips within the bound, only the places in reach of the chain
/// need a look.
pub fn only_reach_counts()
    ensures { OnlyReachCounts }
{}

/// The same of two vertices of a chain of the map, in the words of allowed pairs.
pub fn only_reach_counts_of_chain()
    ensures { OnlyReachCountsOfChain }
{}

/// Of those only the places close to an edge of the chain do: at most twice the bound from a place
/// of it, on each axis.
pub fn only_close_counts()
    ensures { OnlyCloseCounts }
{}

/// The same of two vertices of a chain of the map, in the words of allowed pairs.
pub fn only_close_counts_of_chain()
    ensures { OnlyCloseCountsOfChain }
{}

/// What is close to a walk is in reach of it.
pub fn close_is_in_reach()
    ensures { CloseIsInReach }
{}

/// What is close to a walk is so in whole steps of the grid.
pub fn close_is_in_steps()
    ensures { CloseIsInSteps }
{}

/// What is in reach is in the box of an edge, grown by whole steps of the grid: a question to an
/// index.
pub fn reach_is_in_steps()
    ensures { ReachIsInSteps }
{}

/// Where boxes hold the edges of a walk between them, the boxes, grown, find all that is in reach.
pub fn boxes_find_reach()
    ensures { BoxesFindReach }
{}

/// A place out of the hull of a run has one side of the run and of the segment between its ends.
pub fn out_of_hull_keeps_side()
    ensures { OutOfHullKeepsSide }
{}

/// So has a place out of reach of a run that is within the bound of the segment.
pub fn out_of_reach_keeps_side()
    ensures { OutOfReachKeepsSide }
{}
