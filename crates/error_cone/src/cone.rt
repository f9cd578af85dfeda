//! The cone of an error bound.
ghost use Rattle.std.specs.Prelude.{◌↔◌, IsTrue};
ghost use Rattle.grid_exact.specs.Geometry.{Place, IsWithin};
ghost use Rattle.error_cone.specs.Ways.{is_forward, IsSmall};

use crate::ways::{Way, flatter, mirror, product, steepest, way_between};
use grid_exact::{Bound, Direction, Point};

/// From a start, the points past it along a chain to which a straight way may still pass within a
/// bound of each point taken so far.
///
/// A way passes a point where its line meets the square of all that is at most the bound off the
/// point on both axes, as the line of each segment within the bound of the point does. A point no
/// further from the start than the bound, in the coordinate that the frame compares first, is
/// passed by every way. Of the points taken only the tightest limit above and the tightest below
/// are kept.
#[derive(Clone, Copy)]
pub struct Cone {
    direction: Direction,
    origin: Point,
    bound: Bound,
    above: Way,
    // The limit below, upside down.
    below: Way,
    pub ghost above_forward: { IsTrue (is_forward above) },
    pub ghost below_forward: { IsTrue (is_forward below) },
    pub ghost above_small: { IsSmall above },
    pub ghost below_small: { IsSmall below },
}

impl Cone {
    ghost use Rattle.error_cone.specs.Cone.{Lets, StartsAt, IsPast, Passes};

    /// A cone at this start, along a chain of this direction, that lets every point past it. The
    /// bound is in grid units; where the points are weighted ones, in units of them.
    pub fn start(direction: Direction, from: Point, bound: Bound) -> Cone
        ensures origin { StartsAt result direction.frame direction.rising from bound }
        ensures lets { (v : Place) → IsPast result v → Lets result v }
    {
        Cone {
            direction,
            origin: from,
            bound,
            above: Way { across: 0, up: 1 },
            below: Way { across: 0, up: 1 },
        }
    }

    /// From now on only those points are let that were let before, and to which the way passes p.
    /// So a point is still let that was let before, where p is within the bound of the segment from
    /// the start to it. The point p may be any.
    pub fn take(&mut self, p: Point)
        ensures lets { (v : Place) → IsPast self.old v → Lets self.new v
            ↔ (Lets self.old v × Passes self.old p v) }
        ensures near { (v : Place) → IsPast self.old v → IsWithin self.old.origin v p self.old.bound
            → Lets self.old v → Lets self.new v }
        ensures origin { StartsAt self.new self.old.direction.frame self.old.direction.rising
            self.old.origin self.old.bound }
    {
        let way = way_between(self.direction, self.origin, p);
        if way.across > self.bound.value() {
            self.above = flatter(self.above, steepest(way, self.bound));
            self.below = flatter(self.below, steepest(mirror(way), self.bound));
        }
    }

    /// Whether no point past the start is let: then no segment from the start to a point past it is
    /// within the bound of each point taken.
    pub fn is_closed(&self) -> bool
        ensures { IsTrue result ↔ ((v : Place) → IsPast self.now v → ¬ (Lets self.now v)) }
    {
        product(self.above.up, self.below.across) < -product(self.above.across, self.below.up)
    }
}
