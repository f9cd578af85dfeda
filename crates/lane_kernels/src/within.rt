//! Distances from a segment.
ghost use Rattle.std.specs.Prelude.{◌≡◌, ◌↔◌, IsNone, IfSome, length};
ghost use Rattle.grid_exact.specs.Geometry.{IsWithin};
ghost use Rattle.lane_kernels.specs.Places.{AreCoordinates, EachPlace, IsFirstOff};

use crate::lanes::{LANES, four_in_band};
use crate::plain::{each_within, first_not_within};
use grid_exact::{Bound, Point, length2, threshold};

// Fewer places than this are tested one after another, which took less time there than the root
// that the lanes need.
const FEW: usize = 64;

/// The least place, from 0, in the lists of coordinates of a point that is not within the bound of
/// the closed segment ab; None where each is. The ends a and b may be equal. All numbers are in
/// grid units.
pub fn first_beyond(a: Point, b: Point, xs: &[i64], ys: &[i64], bound: Bound) -> Option<usize>
    requires { AreCoordinates xs.now ys.now }
    ensures none { IsNone result ↔ EachPlace (λ p. IsWithin a b p bound) xs.now ys.now }
    ensures first { IfSome result
        (IsFirstOff 0 (length xs.now) (λ p. IsWithin a b p bound) xs.now ys.now) }
{
    let count = xs.len();
    if count < FEW {
        return first_not_within(a, b, xs, ys, 0, count, bound);
    }
    let reach = threshold(length2(a, b), bound);
    let mut at = 0;
    while count - at >= LANES {
        if !four_in_band(a, b, reach, xs, ys, at)
            && !each_within(a, b, xs, ys, at, at + LANES, bound)
        {
            break;
        }
        at += LANES;
    }
    first_not_within(a, b, xs, ys, at, count, bound)
}
