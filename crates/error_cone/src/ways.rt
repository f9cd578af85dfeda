//! Ways from a place of a chain, in the axes of the chain.
ghost use Rattle.std.specs.Prelude.{◌≡◌, ◌↔◌, ◌+ℤ◌, ◌*ℤ◌, ◌≤ℤ◌, ◌<ℤ◌, ◌^◌, ◌≤◌, pos, IsTrue};
ghost use Rattle.std.specs.Prelude.{unsigned_abs};
ghost use Rattle.grid_exact.specs.declared.frame.Frame.{Frame};
ghost use Rattle.error_cone.specs.Ways.{step_of, way_of, is_forward, mirrored, IsUnder};
ghost use Rattle.error_cone.specs.Ways.{IsUnderSquare, IsSmall};

use grid_exact::{Bound, Direction, Frame, Point};

// How far a way goes across, which is the way that the frame of the chain compares first, and up.
#[derive(Clone, Copy)]
pub struct Way {
    pub across: i64,
    pub up: i64,
}

// The way from a to b in the axes of a chain of this direction.
pub fn way_between(direction: Direction, a: Point, b: Point) -> Way
    ensures way { result ≡ way_of direction.frame direction.rising a b }
    ensures across_bounded { unsigned_abs result.across ≤ 2 ^ 30 }
    ensures up_bounded { unsigned_abs result.up ≤ 2 ^ 30 }
{
    if direction.rising {
        step(direction.frame, a, b)
    } else {
        step(direction.frame, b, a)
    }
}

// The way from a to b, across in the coordinate that the frame compares first.
fn step(frame: Frame, a: Point, b: Point) -> Way
    ensures way { result ≡ step_of frame a b }
    ensures across_bounded { unsigned_abs result.across ≤ 2 ^ 30 }
    ensures up_bounded { unsigned_abs result.up ≤ 2 ^ 30 }
{
    match frame {
        Frame::Plain => Way {
            across: b.x() - a.x(),
            up: b.y() - a.y(),
        },
        Frame::Turned => Way {
            across: b.y() - a.y(),
            up: b.x() - a.x(),
        },
    }
}

// The way upside down.
pub fn mirror(way: Way) -> Way
    requires { unsigned_abs way.up ≤ 2 ^ 30 }
    ensures { result ≡ mirrored way }
{
    Way {
        across: way.across,
        up: -way.up,
    }
}

// The steepest way to where is at most the bound off the end of this way on both axes.
pub fn steepest(way: Way, bound: Bound) -> Way
    requires across_bounded { unsigned_abs way.across ≤ 2 ^ 30 }
    requires up_bounded { unsigned_abs way.up ≤ 2 ^ 30 }
    requires past { bound <ℤ way.across }
    ensures forward { IsTrue (is_forward result) }
    ensures small { IsSmall result }
    ensures limit { (d : Way) → pos 0 ≤ℤ d.across → IsUnder result d ↔ IsUnderSquare bound way d }
{
    let reach = bound.value();
    let up = way.up + reach;
    if up >= 0 {
        Way {
            across: way.across - reach,
            up,
        }
    } else {
        Way {
            across: way.across + reach,
            up,
        }
    }
}

// The less steep one of two ways that go forward.
pub fn flatter(a: Way, b: Way) -> Way
    requires a_forward { IsTrue (is_forward a) }
    requires b_forward { IsTrue (is_forward b) }
    requires a_small { IsSmall a }
    requires b_small { IsSmall b }
    ensures forward { IsTrue (is_forward result) }
    ensures small { IsSmall result }
    ensures limit { (d : Way) → pos 0 ≤ℤ d.across → IsUnder result d ↔ (IsUnder a d × IsUnder b d) }
{
    if is_under(a, b) { b } else { a }
}

// Whether a way is not steeper than the limit, where both go forward.
fn is_under(limit: Way, way: Way) -> bool
    requires limit_small { IsSmall limit }
    requires way_small { IsSmall way }
    ensures { IsTrue result ↔ IsUnder limit way }
{
    product(way.up, limit.across) <= product(way.across, limit.up)
}

// The product of two small numbers.
pub fn product(a: i64, b: i64) -> i64
    requires a_small { unsigned_abs a ≤ 2 ^ 31 }
    requires b_small { unsigned_abs b ≤ 2 ^ 31 }
    ensures value { result ≡ a *ℤ b }
    ensures bounded { unsigned_abs result ≤ 2 ^ 62 }
{
    a * b
}
