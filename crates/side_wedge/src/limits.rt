//! The tightest of the points that must stay on one hand of the ways from a start.
ghost use Rattle.std.specs.Prelude.{◌≡◌, ◌↔◌, ◌≤◌, Bool, IsTrue, length, Some};
ghost use Rattle.std.specs.Option.{ForSome};
ghost use Rattle.grid_exact.specs.declared.frame.Frame.{Frame};
ghost use Rattle.chain_side.specs.Along.{IsAlong};
ghost use Rattle.lane_kernels.specs.Hands.{IsOnSide};
ghost use Rattle.lane_kernels.specs.Places.{AreCoordinates, EachBetween, EachPlace};
ghost use Rattle.side_wedge.specs.Limits.{AreCrossed, IsWithinLimit, IsTighter, IsTightestOf};

use grid_exact::{Point, area};
use lane_kernels::{Hand, first_off_side, point_at};

// Whether p is strictly on this hand of the way from a to b.
fn is_on_hand(a: Point, b: Point, p: Point, hand: Hand) -> bool
    ensures { IsTrue result ↔ IsOnSide hand a b p }
{
    match hand {
        Hand::Left => area(a, b, p) > 0,
        Hand::Right => area(a, b, p) < 0,
    }
}

// Whether the limit, where there is one, is strictly on this hand of the way from the start to v.
pub fn is_within(start: Point, v: Point, limit: Option<Point>, hand: Hand) -> bool
    ensures { IsTrue result ↔ IsWithinLimit hand start limit v }
{
    match limit {
        None => true,
        Some(p) => is_on_hand(start, v, p, hand),
    }
}

// Whether no way past the start has the left limit on its left and the right limit on its right.
pub fn leaves_none(start: Point, left: Option<Point>, right: Option<Point>) -> bool
    ensures { IsTrue result → (frame : Frame) (rising : Bool)
        → AreCrossed frame rising start left right }
{
    match (left, right) {
        (Some(p), Some(q)) => !is_on_hand(start, q, p, Hand::Left),
        _ => false,
    }
}

// The tighter of the limit and p, both past the start.
pub fn tighter(start: Point, limit: Option<Point>, p: Point, hand: Hand) -> Point
    ensures { (frame : Frame) (rising : Bool) → ForSome limit (IsAlong frame rising start)
        → IsAlong frame rising start p → IsTighter frame rising hand start limit p result }
{
    match limit {
        None => p,
        Some(q) => tighter_of(start, q, p, hand),
    }
}

fn tighter_of(start: Point, q: Point, p: Point, hand: Hand) -> Point
    ensures { (frame : Frame) (rising : Bool) → IsAlong frame rising start q
        → IsAlong frame rising start p → IsTighter frame rising hand start (Some q) p result }
{
    if is_on_hand(start, q, p, hand) { q } else { p }
}

// The tightest of the limit and the points with these coordinates, all past the start.
pub fn tightest(
    start: Point,
    limit: Option<Point>,
    xs: &[i64],
    ys: &[i64],
    hand: Hand,
) -> Option<Point>
    requires { AreCoordinates xs.now ys.now }
    ensures { (frame : Frame) (rising : Bool) → ForSome limit (IsAlong frame rising start)
        → EachPlace (IsAlong frame rising start) xs.now ys.now
        → IsTightestOf frame rising hand start limit xs.now ys.now 0 (length xs.now) result }
{
    if xs.is_empty() {
        return limit;
    }
    let first = tighter(start, limit, point_at(xs, ys, 0), hand);
    Some(tightest_from(start, first, xs, ys, 1, hand))
}

// The tightest of a limit and the points from the place `from` on. A point that is on the limit's
// hand changes nothing.
fn tightest_from(
    start: Point,
    first: Point,
    xs: &[i64],
    ys: &[i64],
    from: usize,
    hand: Hand,
) -> Point
    requires coordinates { AreCoordinates xs.now ys.now }
    requires within { from ≤ length xs.now }
    ensures { (frame : Frame) (rising : Bool) → IsAlong frame rising start first
        → EachBetween from (length xs.now) (IsAlong frame rising start) xs.now ys.now
        → IsTightestOf frame rising hand start (Some first) xs.now ys.now from (length xs.now)
        (Some result) }
{
    let mut limit = first;
    let mut at = from;
    while let Some(ahead) = first_off_side(start, limit, &xs[at..], &ys[at..], hand) {
        at += ahead;
        limit = point_at(xs, ys, at);
        at += 1;
    }
    limit
}
