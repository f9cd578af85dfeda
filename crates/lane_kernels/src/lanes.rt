//! Tests of four places at a time.
ghost use Rattle.std.specs.Prelude.{◌≡◌, ◌↔◌, ◌+◌, ◌≤◌, ◌^◌, IsTrue, length, pos, ◌≤ℤ◌, ◌<ℤ◌};
ghost use Rattle.grid_exact.specs.Geometry.{area_of};
ghost use Rattle.lane_kernels.specs.Places.{AreCoordinates, EachBetween};
ghost use Rattle.lane_kernels.specs.Band.{IsInBand};

use grid_exact::{Point, length2};
use std::simd::prelude::*;

/// How many places are tested at a time.
pub(crate) const LANES: usize = 4;

// Whether four places are all strictly beside the segment ab, and the area of each with it is at
// most `reach` in size. The sign bits of four numbers for each place tell it.
#[inline(always)]
pub(crate) fn four_in_band(
    a: Point,
    b: Point,
    reach: i64,
    xs: &[i64],
    ys: &[i64],
    at: usize,
) -> bool
    requires coordinates { AreCoordinates xs.now ys.now }
    requires in_lists { at + LANES ≤ length xs.now }
    requires reach_low { pos 0 ≤ℤ reach }
    requires reach_high { reach <ℤ pos (2 ^ 61) }
    ensures { IsTrue result ↔ EachBetween at (at + LANES) (IsInBand a b reach) xs.now ys.now }
{
    let across = i64x4::splat(b.x() - a.x());
    let up = i64x4::splat(b.y() - a.y());
    let far = i64x4::from_slice(&xs[at..]) - i64x4::splat(a.x());
    let high = i64x4::from_slice(&ys[at..]) - i64x4::splat(a.y());
    let along = across * far + up * high;
    let off = across * high - up * far;
    let past_start = along - i64x4::splat(1);
    let before_end = i64x4::splat(length2(a, b) - 1) - along;
    let not_right = i64x4::splat(reach) + off;
    let not_left = i64x4::splat(reach) - off;
    let outside = (past_start | before_end | not_right | not_left).simd_lt(i64x4::splat(0));
    outside.to_bitmask() == 0
}

// Whether four places are all strictly to the left of the way from a to b.
#[inline(always)]
pub(crate) fn four_on_left(a: Point, b: Point, xs: &[i64], ys: &[i64], at: usize) -> bool
    requires coordinates { AreCoordinates xs.now ys.now }
    requires in_lists { at + LANES ≤ length xs.now }
    ensures { IsTrue result
        ↔ EachBetween at (at + LANES) (λ p. pos 0 <ℤ area_of a b p) xs.now ys.now }
{
    let across = i64x4::splat(b.x() - a.x());
    let up = i64x4::splat(b.y() - a.y());
    let far = i64x4::from_slice(&xs[at..]) - i64x4::splat(a.x());
    let high = i64x4::from_slice(&ys[at..]) - i64x4::splat(a.y());
    let left = across * high - up * far - i64x4::splat(1);
    left.simd_lt(i64x4::splat(0)).to_bitmask() == 0
}
