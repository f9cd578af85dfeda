//! Boxes round walks.
ghost use Rattle.std.specs.Prelude.{◌≡◌, ◌↔◌, ◌<◌, ℤ, ◌+ℤ◌, ◌-ℤ◌, ◌≤ℤ◌, pos, All, length};
ghost use Rattle.grid_exact.specs.Geometry.{Place, IsGridNumber};
ghost use Rattle.chain_reach.specs.Extents.{IsInBox, IsLowerLeft, IsWithinSteps};

use crate::steps::Steps;
use grid_exact::Point;

/// A closed box, by its lowest and its highest corner. Where one corner is past the other, nothing
/// is in it.
#[derive(Clone, Copy)]
pub struct Extent {
    /// the corner with the least coordinates
    pub low: Point,
    /// the corner with the greatest coordinates
    pub high: Point,
}

impl Extent {
    /// The box round the places, of which there is one or more.
    pub fn round(places: &[Point]) -> Extent
        requires { 0 < length places.now }
        ensures { All (IsInBox result.low result.high) places.now }
    {
        let mut low = places[0];
        let mut high = places[0];
        for place in places {
            low = low_corner(low, *place);
            high = high_corner(high, *place);
        }
        Extent { low, high }
    }

    /// The area of the box in square grid units, as far as a number of 64 bits goes.
    pub fn size(&self) -> u64 {
        let width = self.high.x().abs_diff(self.low.x());
        let height = self.high.y().abs_diff(self.low.y());
        width.saturating_mul(height)
    }

    /// The part of the box `whole` that is in this box, grown by the steps on all four sides.
    pub fn grown_within(&self, steps: Steps, whole: &Extent) -> Extent
        ensures { (p : Place) → IsInBox result.low result.high p
            ↔ (IsInBox whole.now.low whole.now.high p
            × IsWithinSteps steps self.now.low self.now.high p) }
    {
        Extent {
            low: lowered(self.low, steps, whole.low),
            high: raised(self.high, steps, whole.high),
        }
    }
}

// The corner of a box that is no further to the right and no further up than a and b.
fn low_corner(a: Point, b: Point) -> Point
    ensures first { IsLowerLeft result a }
    ensures second { IsLowerLeft result b }
{
    corner(leftmost(a, b), lowest(a, b))
}

// The corner that is no further to the left and no further down.
fn high_corner(a: Point, b: Point) -> Point
    ensures first { IsLowerLeft a result }
    ensures second { IsLowerLeft b result }
{
    corner(rightmost(a, b), highest(a, b))
}

// The point across from one point and up from another.
fn corner(across: Point, up: Point) -> Point
    ensures { result ≡ record { x = across.x; y = up.y } }
{
    Point::new(across.x(), up.y()).unwrap()
}

fn leftmost(a: Point, b: Point) -> Point
    ensures first { result.x ≤ℤ a.x }
    ensures second { result.x ≤ℤ b.x }
{
    if a.x() <= b.x() { a } else { b }
}

fn rightmost(a: Point, b: Point) -> Point
    ensures first { a.x ≤ℤ result.x }
    ensures second { b.x ≤ℤ result.x }
{
    if a.x() <= b.x() { b } else { a }
}

fn lowest(a: Point, b: Point) -> Point
    ensures first { result.y ≤ℤ a.y }
    ensures second { result.y ≤ℤ b.y }
{
    if a.y() <= b.y() { a } else { b }
}

fn highest(a: Point, b: Point) -> Point
    ensures first { a.y ≤ℤ result.y }
    ensures second { b.y ≤ℤ result.y }
{
    if a.y() <= b.y() { b } else { a }
}

// The place so many steps further to the left and down, but no further than the floor.
fn lowered(place: Point, steps: Steps, floor: Point) -> Point
    ensures across { (z : ℤ) → (result.x ≤ℤ z)
        ↔ ((floor.x ≤ℤ z) × (place.x ≤ℤ (z +ℤ pos steps.across))) }
    ensures up { (z : ℤ) → (result.y ≤ℤ z) ↔ ((floor.y ≤ℤ z) × (place.y ≤ℤ (z +ℤ pos steps.up))) }
{
    Point::new(left_of(place, steps, floor), below(place, steps, floor)).unwrap()
}

// The place so many steps further to the right and up, but no further than the ceiling.
fn raised(place: Point, steps: Steps, ceiling: Point) -> Point
    ensures across { (z : ℤ) → (z ≤ℤ result.x)
        ↔ ((z ≤ℤ ceiling.x) × (z ≤ℤ (place.x +ℤ pos steps.across))) }
    ensures up { (z : ℤ) → (z ≤ℤ result.y) ↔ ((z ≤ℤ ceiling.y) × (z ≤ℤ (place.y +ℤ pos steps.up))) }
{
    Point::new(
        right_of(place, steps, ceiling),
        above(place, steps, ceiling),
    )
    .unwrap()
}

fn left_of(place: Point, steps: Steps, floor: Point) -> i64
    ensures on_grid { IsGridNumber result }
    ensures value { (z : ℤ) → (result ≤ℤ z)
        ↔ ((floor.x ≤ℤ z) × (place.x ≤ℤ (z +ℤ pos steps.across))) }
{
    let left = place.x() - i64::from(steps.across);
    if left < floor.x() { floor.x() } else { left }
}

fn below(place: Point, steps: Steps, floor: Point) -> i64
    ensures on_grid { IsGridNumber result }
    ensures value { (z : ℤ) → (result ≤ℤ z) ↔ ((floor.y ≤ℤ z) × (place.y ≤ℤ (z +ℤ pos steps.up))) }
{
    let low = place.y() - i64::from(steps.up);
    if low < floor.y() { floor.y() } else { low }
}

fn right_of(place: Point, steps: Steps, ceiling: Point) -> i64
    ensures on_grid { IsGridNumber result }
    ensures value { (z : ℤ) → (z ≤ℤ result)
        ↔ ((z ≤ℤ ceiling.x) × (z ≤ℤ (place.x +ℤ pos steps.across))) }
{
    let right = place.x() + i64::from(steps.across);
    if right > ceiling.x() {
        ceiling.x()
    } else {
        right
    }
}

fn above(place: Point, steps: Steps, ceiling: Point) -> i64
    ensures on_grid { IsGridNumber result }
    ensures value { (z : ℤ) → (z ≤ℤ result)
        ↔ ((z ≤ℤ ceiling.y) × (z ≤ℤ (place.y +ℤ pos steps.up))) }
{
    let high = place.y() + i64::from(steps.up);
    if high > ceiling.y() {
        ceiling.y()
    } else {
        high
    }
}
