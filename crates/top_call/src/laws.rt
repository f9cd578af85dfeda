//! Laws of the command over the definitions alone, each as the contract of a function that does
//! nothing.
ghost use Rattle.top_call.specs.Laws.{AnswerIsOne, CertifiedIsShort, CheckAnswersYes};
ghost use Rattle.top_call.specs.Laws.{FacesAnswersAlike, OutcomeKeepsLines, RecordsAreJudgedYes};
ghost use Rattle.top_call.specs.Laws.{SimplifiedChecksYes, SimplifiedIsShort, SimplifiedKeepsLines};
ghost use Rattle.top_call.specs.Laws.{SimplifiedReadsBack};

/// The records of a run pass each test of the judge, and the judged map is the outcome of the run.
pub fn records_are_judged_yes()
    ensures { RecordsAreJudgedYes }
{}

/// What `simplify` and `layers` write of a text is found right by `check` with the same options and
/// bound: the verdict on it is Yes, and no other.
pub fn simplified_checks_yes()
    ensures { SimplifiedChecksYes }
{}

/// Where OUT is what `simplify` answers to FILE, and CERT what `layers` answers, `check` with the
/// same options and bound has one answer: `yes`.
pub fn check_answers_yes()
    ensures { CheckAnswersYes }
{}

/// What `simplify` writes of a text reads back: it is a topology, whose map is the outcome of the
/// run, with the feature points, the polygons and the coding of the map of that text.
pub fn simplified_reads_back()
    ensures { SimplifiedReadsBack }
{}

/// The lines of `faces` for the outcome of a run are those for the map of the run, where this map
/// is arranged beside the held arcs: each feature point has the same number and the same place, and
/// lies in the same polygons.
pub fn outcome_keeps_lines()
    ensures { OutcomeKeepsLines }
{}

/// The map of what `simplify` writes of a text has the lines of `faces` of the map of that text,
/// whatever the options and the bound: with `--hold` too, though `faces` itself refuses a map that
/// is not arranged.
pub fn simplified_keeps_lines()
    ensures { SimplifiedKeepsLines }
{}

/// Where OUT is what `simplify` answers to FILE, `faces` answers FILE and OUT alike: the lines that
/// it answers to FILE are its one answer to FILE, and its one answer to OUT. Without `--hold` it
/// does answer FILE with lines. This is said of an OUT that `faces` reads, of at most 2^26 bytes.
pub fn faces_answers_alike()
    ensures { FacesAnswersAlike }
{}

/// The words have one answer over the texts that are held: two answers are equal, in status and in
/// bytes.
pub fn answer_is_one()
    ensures { AnswerIsOne }
{}

/// What `simplify` writes of a text of at most 2^26 bytes is at most 2^27 bytes, so it is no longer
/// than OUT may be.
pub fn simplified_is_short()
    ensures { SimplifiedIsShort }
{}

/// What `layers` writes of a text is at most 2^26 bytes, so it is no longer than CERT may be.
pub fn certified_is_short()
    ensures { CertifiedIsShort }
{}
