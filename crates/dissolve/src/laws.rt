//! The law of borders, as the contract of a function that does nothing.
ghost use Rattle.dissolve.specs.Laws.{BorderIsOne};

/// Polygons have one border at most, so the definition names one answer of `border`.
pub fn border_is_one()
    ensures { BorderIsOne }
{}
