//! Reach in whole steps of the grid.
ghost use Rattle.std.specs.Prelude.{◌≡◌, ◌⊎◌, ◌↔◌, ◌+◌, ◌*◌, ◌<◌, ◌≤◌, ◌^◌, IsTrue, pos, ◌+ℤ◌};
ghost use Rattle.std.specs.Prelude.{◌≤ℤ◌, unsigned_abs};
ghost use Rattle.chain_reach.specs.Reach.{IsInGrownBox};
ghost use Rattle.chain_reach.specs.Steps.{AreStepsOf, IsInSomeEdgeBox};

use grid_exact::{Bound, Point, Weights};

/// How many whole steps of the grid twice the bound holds on each axis.
#[derive(Clone, Copy)]
pub struct Steps {
    /// steps across, in grid units
    pub across: u32,
    /// steps up, in grid units
    pub up: u32,
}

impl Steps {
    /// The steps that twice the bound holds where a step across counts for the weight across, and a
    /// step up for that up.
    pub fn of(weights: Weights, bound: Bound) -> Steps
        ensures across { AreStepsOf weights.x bound result.across }
        ensures up { AreStepsOf weights.y bound result.up }
        // The weights are above 0, and the bound is not below it.
        ensures in_range { (pos 1 ≤ℤ weights.x) × (pos 1 ≤ℤ weights.y) × (pos 0 ≤ℤ bound) }
    {
        let twice = 2 * units(bound);
        Steps {
            across: quotient(twice, weight_across(weights)),
            up: quotient(twice, weight_up(weights)),
        }
    }
}

// The bound in grid units.
fn units(bound: Bound) -> u32
    ensures value { bound ≡ pos result }
    ensures small { result ≤ 2 ^ 30 }
{
    bound.value() as u32
}

// The weight across.
fn weight_across(weights: Weights) -> u32
    ensures value { weights.x ≡ pos result }
    ensures some { 0 < result }
{
    weights.x() as u32
}

// The weight up.
fn weight_up(weights: Weights) -> u32
    ensures value { weights.y ≡ pos result }
    ensures some { 0 < result }
{
    weights.y() as u32
}

// How many times n holds d.
fn quotient(n: u32, d: u32) -> u32
    requires { 0 < d }
    ensures low { d * result ≤ n }
    ensures high { n < d * (result + 1) }
{
    n / d
}

// Whether p is in the box of some edge of the walk along these places, grown by the steps on all
// four sides.
pub fn reaches(walk: &[Point], steps: Steps, p: Point) -> bool
    ensures { IsTrue result ↔ IsInSomeEdgeBox steps walk.now p }
{
    for end in 1..walk.len() {
        if is_near(walk[end - 1], walk[end], steps, p) {
            return true;
        }
    }
    false
}

// Whether p is in the box of a and b, grown by the steps on all four sides.
fn is_near(a: Point, b: Point, steps: Steps, p: Point) -> bool
    ensures { IsTrue result ↔ IsInGrownBox (pos steps.across) (pos steps.up) p a b }
{
    if !is_past_left(a, b, steps, p) {
        return false;
    }
    if !is_before_right(a, b, steps, p) {
        return false;
    }
    if !is_past_bottom(a, b, steps, p) {
        return false;
    }
    is_before_top(a, b, steps, p)
}

// Whether p is not to the left of the grown box.
fn is_past_left(a: Point, b: Point, steps: Steps, p: Point) -> bool
    ensures { IsTrue result ↔ ((a.x ≤ℤ (p.x +ℤ pos steps.across))
        ⊎ (b.x ≤ℤ (p.x +ℤ pos steps.across))) }
{
    is_across(a, p, steps) || is_across(b, p, steps)
}

// Whether p is not to the right of the grown box.
fn is_before_right(a: Point, b: Point, steps: Steps, p: Point) -> bool
    ensures { IsTrue result ↔ ((p.x ≤ℤ (a.x +ℤ pos steps.across))
        ⊎ (p.x ≤ℤ (b.x +ℤ pos steps.across))) }
{
    is_across(p, a, steps) || is_across(p, b, steps)
}

// Whether p is not below the grown box.
fn is_past_bottom(a: Point, b: Point, steps: Steps, p: Point) -> bool
    ensures { IsTrue result ↔ ((a.y ≤ℤ (p.y +ℤ pos steps.up)) ⊎ (b.y ≤ℤ (p.y +ℤ pos steps.up))) }
{
    is_up(a, p, steps) || is_up(b, p, steps)
}

// Whether p is not above the grown box.
fn is_before_top(a: Point, b: Point, steps: Steps, p: Point) -> bool
    ensures { IsTrue result ↔ ((p.y ≤ℤ (a.y +ℤ pos steps.up)) ⊎ (p.y ≤ℤ (b.y +ℤ pos steps.up))) }
{
    is_up(p, a, steps) || is_up(p, b, steps)
}

// Whether a is at most the steps to the right of b.
fn is_across(a: Point, b: Point, steps: Steps) -> bool
    ensures { IsTrue result ↔ (a.x ≤ℤ (b.x +ℤ pos steps.across)) }
{
    a.x() <= b.x() + i64::from(steps.across)
}

// Whether a is at most the steps above b.
fn is_up(a: Point, b: Point, steps: Steps) -> bool
    ensures { IsTrue result ↔ (a.y ≤ℤ (b.y +ℤ pos steps.up)) }
{
    a.y() <= b.y() + i64::from(steps.up)
}
