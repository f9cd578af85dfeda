//! The nearness part of a pair, over the vertices of a chain with their coordinates times the
//! weights.
ghost use Rattle.std.specs.Prelude.{◌<◌, ◌↔◌, IsTrue, length};
ghost use Rattle.cert_checker.specs.Runs.{IsRunWithin};

use grid_exact::{Bound, Point, within};

// Whether the places between those number `i` and `j` are within the bound of the segment between
// the two. The place number `culprit` was too far away last, so it is tried first; where another
// one is too far, it becomes the culprit.
pub fn is_near(places: &[Point], i: usize, j: usize, bound: Bound, culprit: &mut usize) -> bool
    requires order { i < j }
    requires within { j < length places.now }
    ensures { IsTrue result ↔ IsRunWithin bound places.now i j }
{
    let (from, to) = (places[i], places[j]);
    let last = *culprit;
    if i < last && last < j && !within(from, to, places[last], bound) {
        return false;
    }
    for at in i + 1..j {
        if !within(from, to, places[at], bound) {
            *culprit = at;
            return false;
        }
    }
    true
}
