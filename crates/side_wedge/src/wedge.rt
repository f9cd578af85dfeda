//! What lies open from a vertex of a chain, between points that must keep their sides.
ghost use Rattle.std.specs.Prelude.{◌≡◌, ◌↔◌, IsTrue};
ghost use Rattle.std.specs.Option.{ForSome};
ghost use Rattle.grid_exact.specs.Geometry.{Place};
ghost use Rattle.lane_kernels.specs.Hands.{IsOnSide};
ghost use Rattle.lane_kernels.specs.Places.{AreCoordinates, EachPlace};
ghost use Rattle.side_wedge.specs.Lines.{IsAside, side_of};
ghost use Rattle.side_wedge.specs.Limits.{is_along};

use crate::limits::{is_within, leaves_none, tighter, tightest};
use chain_side::Side;
use grid_exact::{Direction, Frame, Point};
use lane_kernels::Hand;

/// From a start, the points past it in the direction of a chain to which a straight way leaves each
/// point taken so far on its side. Of the points taken only the tightest on either hand are kept.
#[derive(Clone, Copy)]
pub struct Wedge {
    direction: Direction,
    origin: Point,
    left: Option<Point>,
    right: Option<Point>,
    pub ghost left_past: { ForSome left (λ p.
        IsTrue (is_along direction.frame direction.rising origin p)) },
    pub ghost right_past: { ForSome right (λ p.
        IsTrue (is_along direction.frame direction.rising origin p)) },
}

impl Wedge {
    ghost use Rattle.side_wedge.specs.Wedge.{Lets, StartsAt, IsPast, IsBesideWay};

    /// A wedge at this start, along a chain of this direction, that lets every point.
    pub fn start(direction: Direction, from: Point) -> Wedge
        ensures origin { StartsAt result direction.frame direction.rising from }
        ensures lets { (v : Place) → Lets result v }
    {
        Wedge {
            direction,
            origin: from,
            left: None,
            right: None,
        }
    }

    /// From now on only those points are let that were let before, and that have p strictly on this
    /// side, above or below, of the line through the start and them. The point p is strictly past
    /// the start in the chain's direction.
    pub fn take_point(&mut self, p: Point, side: Side)
        requires past { IsPast self.old p }
        requires side { IsAside side }
        ensures lets { (v : Place) → IsPast self.new v → Lets self.new v
            ↔ (Lets self.old v × IsBesideWay self.old v p side) }
        ensures origin { StartsAt self.new self.old.direction.frame self.old.direction.rising
            self.old.origin }
    {
        match hand_of(self.direction, side) {
            Hand::Left => self.left = Some(tighter(self.origin, self.left, p, Hand::Left)),
            Hand::Right => self.right = Some(tighter(self.origin, self.right, p, Hand::Right)),
        }
    }

    /// Whether the wedge admits v. It is strictly past the start in the chain's direction.
    pub fn admits(&self, v: Point) -> bool
        requires { IsPast self.now v }
        ensures { IsTrue result ↔ Lets self.now v }
    {
        is_within(self.origin, v, self.left, Hand::Left)
            && is_within(self.origin, v, self.right, Hand::Right)
    }

    /// Whether no point past the start is let any more.
    pub fn is_closed(&self) -> bool
        ensures { IsTrue result → (v : Place) → IsPast self.now v → ¬ (Lets self.now v) }
    {
        leaves_none(self.origin, self.left, self.right)
    }

    // Takes each of the points with these coordinates, which must stay on this hand of a way from
    // the start.
    pub(crate) fn take_points(&mut self, xs: &[i64], ys: &[i64], hand: Hand)
        requires coordinates { AreCoordinates xs.now ys.now }
        requires past { EachPlace (IsPast self.old) xs.now ys.now }
        ensures lets { (v : Place) → IsPast self.new v → Lets self.new v
            ↔ (Lets self.old v × EachPlace (IsOnSide hand self.old.origin v) xs.now ys.now) }
        ensures origin { StartsAt self.new self.old.direction.frame self.old.direction.rising
            self.old.origin }
    {
        match hand {
            Hand::Left => self.left = tightest(self.origin, self.left, xs, ys, Hand::Left),
            Hand::Right => self.right = tightest(self.origin, self.right, xs, ys, Hand::Right),
        }
    }
}

// The hand of the way along a chain on which this side of it is.
fn hand_of(direction: Direction, side: Side) -> Hand
    requires { IsAside side }
    ensures { side_of direction.frame direction.rising result ≡ side }
{
    let above = match direction.frame {
        Frame::Plain => direction.rising,
        Frame::Turned => !direction.rising,
    };
    if (side == Side::Above) == above {
        Hand::Left
    } else {
        Hand::Right
    }
}
