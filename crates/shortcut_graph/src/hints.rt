//! What the tests of a chain's pairs have shown that may end the next ones sooner.
//!
//! The vertex that was too far last is looked at first. The ways back from a vertex that was
//! stepped to are kept as a corridor, so that one start more, with the same end, takes the same
//! time however many vertices are between.
ghost use Rattle.std.specs.Prelude.{◌≡◌, ◌↔◌, ◌+◌, ◌<◌, ◌≤◌, IsTrue, length};
ghost use Rattle.lane_kernels.specs.Places.{AreCoordinates};
ghost use Rattle.shortcut_graph.specs.Weighed.{IsNearRun};
ghost use Rattle.shortcut_graph.specs.Hints.{AreHints};

use crate::corridor::Corridor;
use crate::ruler::{Ruler, is_far};
use error_band::first_far;
use grid_exact::Direction;
use lane_kernels::point_at;

// A corridor is made only from a vertex so many after the start. Shorter runs are tested as soon
// without one.
const FAR: usize = 24;

/// A vertex that was too far, and the ways back from another.
#[derive(Clone, Copy)]
pub(crate) struct Hints {
    /// the vertex that was too far last; it may be any number
    pub(crate) culprit: usize,
    /// where the corridor starts
    pub(crate) anchor: usize,
    /// the first of the vertices for which it stands
    pub(crate) first: usize,
    pub(crate) corridor: Corridor,
}

impl Hints {
    /// The hints of a corridor from this vertex along the direction. It stands for no vertex yet.
    pub(crate) fn at(ruler: &Ruler<'_>, direction: Direction, anchor: usize) -> Hints
        requires coordinates { AreCoordinates ruler.now.xs.now ruler.now.ys.now }
        requires in_lists { anchor < length ruler.now.xs.now }
        ensures { AreHints result ruler.now.xs.now ruler.now.ys.now ruler.now.bound }
    {
        Hints {
            culprit: anchor,
            anchor,
            first: anchor,
            corridor: Corridor::start(ruler, direction, anchor),
        }
    }

    /// Keeps a step that was found: the corridor starts where it ends from now on, if that is far
    /// on.
    pub(crate) fn keep(&mut self, ruler: &Ruler<'_>, start: usize, next: usize)
        requires coordinates { AreCoordinates ruler.now.xs.now ruler.now.ys.now }
        requires in_lists { next < length ruler.now.xs.now }
        requires hints { AreHints self.old ruler.now.xs.now ruler.now.ys.now ruler.now.bound }
        ensures { AreHints self.new ruler.now.xs.now ruler.now.ys.now ruler.now.bound }
    {
        if next == self.anchor || next.saturating_sub(start) < FAR {
            return;
        }
        self.anchor = next;
        self.first = next;
        self.corridor = Corridor::start(ruler, self.corridor.direction, next);
    }

    /// Whether each vertex strictly between `start` and `end` is within the bound of the segment
    /// between these two.
    pub(crate) fn is_near(&mut self, ruler: &Ruler<'_>, start: usize, end: usize) -> bool
        requires coordinates { AreCoordinates ruler.now.xs.now ruler.now.ys.now }
        requires forwards { start < end }
        requires in_lists { end < length ruler.now.xs.now }
        requires hints { AreHints self.old ruler.now.xs.now ruler.now.ys.now ruler.now.bound }
        ensures near { IsTrue result ↔ IsNearRun ruler.now.xs.now ruler.now.ys.now ruler.now.bound
            start end }
        ensures hints { AreHints self.new ruler.now.xs.now ruler.now.ys.now ruler.now.bound }
    {
        if self.lets(ruler, start, end) {
            return true;
        }
        if is_far(ruler, start, end, self.culprit) {
            return false;
        }
        match first_far(ruler.xs, ruler.ys, start, end, ruler.bound) {
            None => true,
            Some(culprit) => {
                self.culprit = culprit;
                false
            }
        }
    }

    // Whether the corridor starts at `end` and lets the way from there to `start`. Where it does
    // not let it, the vertex that stands against this way is the culprit.
    fn lets(&mut self, ruler: &Ruler<'_>, start: usize, end: usize) -> bool
        requires coordinates { AreCoordinates ruler.now.xs.now ruler.now.ys.now }
        requires forwards { start < end }
        requires in_lists { end < length ruler.now.xs.now }
        requires hints { AreHints self.old ruler.now.xs.now ruler.now.ys.now ruler.now.bound }
        ensures near { IsTrue result → IsNearRun ruler.now.xs.now ruler.now.ys.now ruler.now.bound
            start end }
        ensures hints { AreHints self.new ruler.now.xs.now ruler.now.ys.now ruler.now.bound }
    {
        if end != self.anchor {
            return false;
        }
        self.take_to(ruler, start + 1);
        match self.corridor.culprit(point_at(ruler.xs, ruler.ys, start)) {
            None => true,
            Some(culprit) => {
                self.culprit = culprit;
                false
            }
        }
    }

    // Takes the vertices from the number `to` on into the corridor that are not taken yet.
    fn take_to(&mut self, ruler: &Ruler<'_>, to: usize)
        requires coordinates { AreCoordinates ruler.now.xs.now ruler.now.ys.now }
        requires hints { AreHints self.old ruler.now.xs.now ruler.now.ys.now ruler.now.bound }
        ensures anchor { self.new.anchor ≡ self.old.anchor }
        ensures taken { self.new.first ≤ to }
        ensures hints { AreHints self.new ruler.now.xs.now ruler.now.ys.now ruler.now.bound }
    {
        while self.first > to {
            self.first -= 1;
            self.corridor.take(ruler, self.first);
        }
    }
}
