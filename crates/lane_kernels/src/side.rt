//! Sides of the way from one point to another.
ghost use Rattle.std.specs.Prelude.{◌≡◌, ◌↔◌, IsNone, IfSome, length, pos, ◌<ℤ◌};
ghost use Rattle.grid_exact.specs.Geometry.{area_of};
ghost use Rattle.lane_kernels.specs.Places.{AreCoordinates, EachPlace, IsFirstOff};
ghost use Rattle.lane_kernels.specs.Hands.{IsOnSide};

use crate::lanes::{LANES, four_on_left};
use crate::plain::first_not_left;
use grid_exact::Point;

/// A side of the way from one point to another.
#[derive(Clone, Copy, PartialEq, Eq, Debug)]
pub enum Hand {
    /// where the area is positive
    Left,
    /// where the area is negative
    Right,
}

/// The least place, from 0, in the lists of coordinates of a point that is not strictly on this
/// side of the way from a to b; None where each is. The coordinates are in grid units.
pub fn first_off_side(a: Point, b: Point, xs: &[i64], ys: &[i64], hand: Hand) -> Option<usize>
    requires { AreCoordinates xs.now ys.now }
    ensures none { IsNone result ↔ EachPlace (IsOnSide hand a b) xs.now ys.now }
    ensures first { IfSome result (IsFirstOff 0 (length xs.now) (IsOnSide hand a b) xs.now ys.now) }
{
    match hand {
        Hand::Left => first_off_left(a, b, xs, ys),
        Hand::Right => first_off_left(b, a, xs, ys),
    }
}

fn first_off_left(a: Point, b: Point, xs: &[i64], ys: &[i64]) -> Option<usize>
    requires { AreCoordinates xs.now ys.now }
    ensures none { IsNone result ↔ EachPlace (λ p. pos 0 <ℤ area_of a b p) xs.now ys.now }
    ensures first { IfSome result
        (IsFirstOff 0 (length xs.now) (λ p. pos 0 <ℤ area_of a b p) xs.now ys.now) }
{
    let count = xs.len();
    let mut at = 0;
    while count - at >= LANES && four_on_left(a, b, xs, ys, at) {
        at += LANES;
    }
    first_not_left(a, b, xs, ys, at, count)
}
