//! What stays open to a straight way from a vertex of a chain that has to pass within a bound of
//! the vertices after it. It is the cone of Sklansky and Gonzalez, "Fast polygonal approximation of
//! digitized curves", Pattern Recognition 12, 1980, with squares in place of circles, so that it is
//! told by whole numbers.
#![tactic(auto)]

mod cone;
mod ways;

pub use cone::Cone;
