//! What a verdict Yes says, over the definitions alone, each as the contract of a function that
//! does nothing.
ghost use Rattle.top_call.specs.JudgedLaws.{CheckedYesAreRight, YesKeepsFaces, YesKeepsFewest};
ghost use Rattle.top_call.specs.JudgedLaws.{YesThinsArcs};

/// Where a certificate is judged Yes, each of its records keeps a path of allowed pairs of its
/// chain in the map as found, and no such path has fewer vertices.
pub fn yes_keeps_fewest()
    ensures { YesKeepsFewest }
{}

/// Where a certificate for a map that is arranged beside its held arcs is judged Yes, the judged
/// map is arranged beside them, each arc is crossed with the same parity from each feature point,
/// and each feature point is in the same polygons.
pub fn yes_keeps_faces()
    ensures { YesKeepsFaces }
{}

/// Where a certificate is judged Yes, of each arc of the map some positions are left in the judged
/// map: the first and the last and both ends of each of its chains are among them, each position
/// that is skipped is within the bound of the edge that skips it, and a held arc is unchanged; the
/// feature points and the polygons are as they were.
pub fn yes_thins_arcs()
    ensures { YesThinsArcs }
{}

/// Where the verdict of `check` is Yes, OUT is FILE with the arcs of a map of which the three laws
/// above hold.
pub fn checked_yes_are_right()
    ensures { CheckedYesAreRight }
{}
