//! The distance test of a run.
ghost use Rattle.std.specs.Prelude.{◌↔◌, ◌+◌, ◌<◌, IsNone, IfSome, length};
ghost use Rattle.grid_exact.specs.Geometry.{IsWithin};
ghost use Rattle.lane_kernels.specs.Places.{AreCoordinates, EachBetween, IsFirstOff, place_at};

use grid_exact::Bound;
use lane_kernels::{first_beyond, point_at};

/// The first vertex strictly between the vertices i and j, numbered from 0, that is not within the
/// bound of the closed segment between these two; None where each is. The vertices are given by
/// their coordinates, and all numbers are in grid units.
pub fn first_far(xs: &[i64], ys: &[i64], i: usize, j: usize, bound: Bound) -> Option<usize>
    requires coordinates { AreCoordinates xs.now ys.now }
    requires forwards { i < j }
    requires in_lists { j < length xs.now }
    ensures none { IsNone result
        ↔ EachBetween (i + 1) j
        (λ p. IsWithin (place_at xs.now ys.now i) (place_at xs.now ys.now j) p bound) xs.now
        ys.now }
    ensures first { IfSome result (IsFirstOff (i + 1) j
        (λ p. IsWithin (place_at xs.now ys.now i) (place_at xs.now ys.now j) p bound) xs.now
        ys.now) }
{
    let from = point_at(xs, ys, i);
    let to = point_at(xs, ys, j);
    match first_beyond(from, to, &xs[i + 1..j], &ys[i + 1..j], bound) {
        Some(place) => Some(i + 1 + place),
        None => None,
    }
}
