//! Laws of made coverages, each as the contract of a function that does nothing.
ghost use Rattle.map_gen.specs.Laws.{MadeMapsAreArranged, MadeMapsAreMaps, MadeTextReads};

/// No two edges of a made coverage clash, and no town is on an edge.
pub fn made_maps_are_arranged()
    ensures { MadeMapsAreArranged }
{}

/// The map of a coverage of at most 100 rows and columns is a map, within the limits.
pub fn made_maps_are_maps()
    ensures { MadeMapsAreMaps }
{}

/// The text of a coverage of 1 to 100 rows and columns is JSON, and the topology that it is has the
/// map of the coverage.
pub fn made_text_reads()
    ensures { MadeTextReads }
{}
