//! The law of the text of a built topology, as the contract of a function that does nothing.
ghost use Rattle.geo_text.specs.Laws.{BuiltTextReads};

/// The text of the topology that was built from a text of GeoJSON no deeper than 60 reads as the
/// built map.
pub fn built_text_reads()
    ensures { BuiltTextReads }
{}
