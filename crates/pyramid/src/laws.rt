//! Laws of levels over the definitions alone, each as the contract of a function that does nothing.
ghost use Rattle.pyramid.specs.Laws.{RunKeepsPlaces, LevelsAreOne, RanksAreOne};

/// Where no arc is held, the places of an arc that the records of a run keep are those that its
/// outcome leaves: they rise from the first to the last, and each place that is skipped is within
/// the bound of the edge that skips it.
pub fn run_keeps_places()
    ensures { RunKeepsPlaces }
{}

/// By the same bounds any two levels of one number are one: their maps are equal, and so are the
/// places of each arc.
pub fn levels_are_one()
    ensures { LevelsAreOne }
{}

/// By the same bounds a map has one list of ranks for each arc, so the definition names one answer
/// of `rank_all`.
pub fn ranks_are_one()
    ensures { RanksAreOne }
{}
