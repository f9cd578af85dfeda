//! Laws of runs over the definitions alone, each as the contract of a function that does nothing.
ghost use Rattle.chain_replace.specs.Laws.{OutcomeIsOne, LayersCertifyPath, OutcomeKeepsFaces};
ghost use Rattle.chain_replace.specs.Laws.{OutcomeThinsArcs};

/// A run has one outcome: any two maps that a run over one map may lead to are equal, and their
/// records too.
pub fn outcome_is_one()
    ensures { OutcomeIsOne }
{}

/// The layers in the record of a chain certify the path that is kept: no path of allowed pairs has
/// fewer vertices.
pub fn layers_certify_path()
    ensures { LayersCertifyPath }
{}

/// The outcome of a run over a map that is arranged beside held arcs is arranged beside them. From
/// each feature point each arc is crossed with the same parity, and each feature point is in the
/// same polygons.
pub fn outcome_keeps_faces()
    ensures { OutcomeKeepsFaces }
{}

/// The outcome of a run thins the arcs of the map: of each arc some places are left, its first and
/// its last and both ends of each of its chains among them, and each place that is skipped is
/// within the bound of the edge that skips it. A held arc is unchanged, and so is all of the map
/// but its arcs.
pub fn outcome_thins_arcs()
    ensures { OutcomeThinsArcs }
{}
