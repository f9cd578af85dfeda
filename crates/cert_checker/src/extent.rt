//! The box round a run.
ghost use Rattle.std.specs.Prelude.{◌≡◌, ◌∷◌, ◌≤ℤ◌, All};
ghost use Rattle.cert_checker.specs.Runs.{IsInBox, IsLowerLeft};

use grid_exact::Point;

// A closed box, by its lowest and its highest corner.
#[derive(Clone, Copy)]
pub struct Extent {
    pub low: Point,
    pub high: Point,
    pub ghost ordered: { IsLowerLeft low high },
}

impl Extent {
    // The box round the places of the run from the first place along the rest.
    pub fn of(first: Point, rest: &[Point]) -> Extent
        ensures { All (IsInBox result.low result.high) (first ∷ rest.now) }
    {
        let mut extent = Extent {
            low: first,
            high: first,
        };
        for p in rest {
            extent = extent.with(*p);
        }
        extent
    }

    // The box with room for p as well.
    fn with(self, p: Point) -> Extent
        ensures new { IsInBox result.low result.high p }
        ensures low { IsInBox result.low result.high self.low }
        ensures high { IsInBox result.low result.high self.high }
    {
        Extent {
            low: low_corner(self.low, p),
            high: high_corner(self.high, p),
        }
    }
}

// The corner of a box that is no further to the right and no further up than a and b.
fn low_corner(a: Point, b: Point) -> Point
    ensures first { IsLowerLeft result a }
    ensures second { IsLowerLeft result b }
{
    corner(leftmost(a, b), lowest(a, b))
}

// The corner that is no further to the left and no further down.
fn high_corner(a: Point, b: Point) -> Point
    ensures first { IsLowerLeft a result }
    ensures second { IsLowerLeft b result }
{
    corner(rightmost(a, b), highest(a, b))
}

// The point across from one point and up from another.
fn corner(across: Point, up: Point) -> Point
    ensures { result ≡ record { x = across.x; y = up.y } }
{
    Point::new(across.x(), up.y()).unwrap()
}

fn leftmost(a: Point, b: Point) -> Point
    ensures first { result.x ≤ℤ a.x }
    ensures second { result.x ≤ℤ b.x }
{
    if a.x() <= b.x() { a } else { b }
}

fn rightmost(a: Point, b: Point) -> Point
    ensures first { a.x ≤ℤ result.x }
    ensures second { b.x ≤ℤ result.x }
{
    if a.x() <= b.x() { b } else { a }
}

fn lowest(a: Point, b: Point) -> Point
    ensures first { result.y ≤ℤ a.y }
    ensures second { result.y ≤ℤ b.y }
{
    if a.y() <= b.y() { a } else { b }
}

fn highest(a: Point, b: Point) -> Point
    ensures first { a.y ≤ℤ result.y }
    ensures second { b.y ≤ℤ result.y }
{
    if a.y() <= b.y() { b } else { a }
}
