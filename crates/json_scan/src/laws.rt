//! Laws of the grammar and of the machine that reads it. Each is the contract of a function that
//! does nothing.

ghost use Rattle.json_scan.specs.Stops.{EachDocumentRuns, EachRunIsDocument, StopsBehindLongest};
ghost use Rattle.json_scan.specs.Stops.{HasLongest, LongestIsUnique, StopsAtDeepBracket, HasAnswer};
ghost use Rattle.json_scan.specs.Stops.{RefusalsExclude};

/// Each JSON text runs through the machine to its end and leaves its nodes, and what runs to its
/// end is a JSON text.
pub fn documents_run()
    ensures each { EachDocumentRuns }
    ensures only { EachRunIsDocument }
{}

/// Each text has one longest prefix that some JSON text begins with, and the machine stops behind
/// it.
pub fn stops_behind_longest_prefix()
    ensures place { StopsBehindLongest }
    ensures exists { HasLongest }
    ensures unique { LongestIsUnique }
{}

/// The first bracket of depth 65 in that prefix is where the machine stops if no more than 64 may
/// be open.
pub fn stops_at_deep_bracket()
    ensures { StopsAtDeepBracket }
{}

/// Each text either has nodes or is refused, and in one way only.
pub fn each_text_has_one_answer()
    ensures one { HasAnswer }
    ensures only { RefusalsExclude }
{}
