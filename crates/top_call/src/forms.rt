//! The forms of a command line.

use grid_exact::{Bound, Weights};

/// How a map is thinned, besides the bound.
#[derive(Drop)]
pub struct Options {
    /// Whether arcs that meet where they may not are held, in place of a refusal of the map.
    pub hold: bool,
    /// The weights of the two axes, where the words name them. Without them both are 1.
    pub weights: Option<Weights>,
}

/// A command line that fits a form. A name of a text is not empty, and `-` is standard input.
#[derive(Drop)]
pub enum Request<'a> {
    /// Thin the map of a text within a bound, and write the text with the arcs that are left.
    Simplify(Options, Bound, &'a str),
    /// Thin likewise, and write the certificate.
    Layers(Options, Bound, &'a str),
    /// Check what was written for the first text: the second text and its certificate, the third.
    Check(Options, Bound, &'a str, &'a str, &'a str),
    /// Write for each feature point of the map of a text the polygons in which it lies.
    Faces(&'a str),
    /// Make a coverage of so many rows and columns of cells from a seed.
    Make(u32, u32, u32),
    /// Make such a coverage, thin it within a bound, and write what came of it in numbers.
    Demo(u32, u32, u32, Bound),
    /// Write the border of the polygons whose numbers a word lists, of the map of a text: the word,
    /// and the name of the text.
    Dissolve(&'a str, &'a str),
    /// Build a topology of the GeoJSON polygons of a text, and write it.
    Build(&'a str),
    /// Write the rank of each position by the levels of the bounds that a word lists, of the map of
    /// a text: the word, and the name of the text.
    Pyramid(&'a str, &'a str),
}
