//! The same tests of one place after another.
ghost use Rattle.std.specs.Prelude.{◌≡◌, ◌↔◌, ◌+◌, ◌<◌, ◌≤◌, IsTrue, IsNone, IfSome, length, pos};
ghost use Rattle.std.specs.Prelude.{◌<ℤ◌};
ghost use Rattle.grid_exact.specs.Geometry.{area_of, IsWithin};
ghost use Rattle.lane_kernels.specs.Places.{AreCoordinates, EachBetween, IsFirstOff, place_at};

use grid_exact::{Bound, Point, area, within};

/// The point with the coordinates at the place k, from 0, of two lists of coordinates in grid
/// units.
#[inline(always)]
pub fn point_at(xs: &[i64], ys: &[i64], k: usize) -> Point
    requires coordinates { AreCoordinates xs.now ys.now }
    requires in_lists { k < length xs.now }
    ensures { result ≡ place_at xs.now ys.now k }
{
    match Point::new(xs[k], ys[k]) {
        Some(point) => point,
        None => unreachable!(),
    }
}

// Whether the places from the number `from` to before the number `to` are within the bound of the
// segment ab.
pub(crate) fn each_within(
    a: Point,
    b: Point,
    xs: &[i64],
    ys: &[i64],
    from: usize,
    to: usize,
    bound: Bound,
) -> bool
    requires coordinates { AreCoordinates xs.now ys.now }
    requires in_lists { to ≤ length xs.now }
    ensures { IsTrue result ↔ EachBetween from to (λ p. IsWithin a b p bound) xs.now ys.now }
{
    for k in from..to {
        if !within(a, b, point_at(xs, ys, k), bound) {
            return false;
        }
    }
    true
}

// The least number from `from` to before `to` of a place that is not within the bound of the
// segment ab.
pub(crate) fn first_not_within(
    a: Point,
    b: Point,
    xs: &[i64],
    ys: &[i64],
    from: usize,
    to: usize,
    bound: Bound,
) -> Option<usize>
    requires coordinates { AreCoordinates xs.now ys.now }
    requires in_lists { to ≤ length xs.now }
    ensures none { IsNone result ↔ EachBetween from to (λ p. IsWithin a b p bound) xs.now ys.now }
    ensures first { IfSome result (IsFirstOff from to (λ p. IsWithin a b p bound) xs.now ys.now) }
{
    for k in from..to {
        if !within(a, b, point_at(xs, ys, k), bound) {
            return Some(k);
        }
    }
    None
}

// The least number from `from` to before `to` of a place that is not strictly to the left of the
// way from a to b.
pub(crate) fn first_not_left(
    a: Point,
    b: Point,
    xs: &[i64],
    ys: &[i64],
    from: usize,
    to: usize,
) -> Option<usize>
    requires coordinates { AreCoordinates xs.now ys.now }
    requires in_lists { to ≤ length xs.now }
    ensures none { IsNone result ↔ EachBetween from to (λ p. pos 0 <ℤ area_of a b p) xs.now ys.now }
    ensures first { IfSome result (IsFirstOff from to (λ p. pos 0 <ℤ area_of a b p) xs.now ys.now) }
{
    for k in from..to {
        if area(a, b, point_at(xs, ys, k)) <= 0 {
            return Some(k);
        }
    }
    None
}
