//! The law of texts with other arcs, as the contract of a function that does nothing.
ghost use Rattle.topo_writer.specs.Laws.{SplicedReadsBack};

/// A text that is a topology, with the text of the arcs of a map in the place of the value of
/// `arcs`, reads as that map, where each of its arcs begins and ends where that of the topology
/// does and has no positions but those of it, and all else is as it was.
pub fn spliced_reads_back()
    ensures { SplicedReadsBack }
{}
