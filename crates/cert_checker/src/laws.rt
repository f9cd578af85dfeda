//! What a Yes says, over the definitions alone, each as the contract of a function that does
//! nothing.
ghost use Rattle.cert_checker.specs.Laws.{AcceptedKeepFewest, YesIsSound, YesKeepsChains};
ghost use Rattle.cert_checker.specs.Once.{JudgedOnce};

/// A record that is accepted keeps a path of its chain in the map as found, and no such path has
/// fewer entries.
pub fn accepted_keep_fewest()
    ensures { AcceptedKeepFewest }
{}

/// Where a certificate for a map that is arranged beside its held arcs is judged Yes, the judged
/// map is arranged beside them, each arc is crossed with the same parity from each feature point,
/// and each feature point is in the same polygons.
pub fn yes_is_sound()
    ensures { YesIsSound }
{}

/// A certificate has one verdict for a map, and one outcome: so the verdict is Yes exactly where
/// the definition says Yes.
pub fn judged_once()
    ensures { JudgedOnce }
{}

/// Where a certificate is judged Yes, each chain of the judged map has its old ends, each vertex
/// that it skips is within the bound of the edge that skips it, and the chains of held arcs stay.
pub fn yes_keeps_chains()
    ensures { YesKeepsChains }
{}
