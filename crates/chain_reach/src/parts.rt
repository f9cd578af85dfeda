//! Equal parts of a segment, each with the box in which what is near it is looked for.
ghost use Rattle.std.specs.Prelude.{◌≡◌, ◌+◌, ◌*◌, ◌<◌, ◌≤◌, ◌^◌, pos, ◌+ℤ◌, ◌≤ℤ◌};
ghost use Rattle.grid_exact.specs.Geometry.{IsGridNumber, turned};
ghost use Rattle.chain_reach.specs.Parts.{AreFoundInPart, IsHighOfPart, IsLowOfPart};

use crate::extent::Extent;
use crate::steps::Steps;
use grid_exact::Point;

/// The box round the part number `part` of the segment ab, which is cut in so many equal parts,
/// grown by the steps, as far as the box `whole` goes.
pub fn part_round(a: Point, b: Point, parts: u32, part: u32, steps: Steps, whole: &Extent) -> Extent
    requires within { part < parts }
    requires few { parts ≤ 64 }
    ensures { AreFoundInPart a b parts part steps whole.now result }
{
    let round = Extent {
        low: part_low(a, b, parts, part),
        high: part_high(a, b, parts, part),
    };
    round.grown_within(steps, whole)
}

// The lowest corner of the box round the part.
fn part_low(a: Point, b: Point, parts: u32, part: u32) -> Point
    requires within { part < parts }
    requires few { parts ≤ 64 }
    ensures across { IsLowOfPart a.x b.x parts part result.x }
    ensures up { IsLowOfPart a.y b.y parts part result.y }
{
    Point::new(
        low_across(a, b, parts, part),
        low_across(mirrored(a), mirrored(b), parts, part),
    )
    .unwrap()
}

// The highest corner of it.
fn part_high(a: Point, b: Point, parts: u32, part: u32) -> Point
    requires within { part < parts }
    requires few { parts ≤ 64 }
    ensures across { IsHighOfPart a.x b.x parts part result.x }
    ensures up { IsHighOfPart a.y b.y parts part result.y }
{
    Point::new(
        high_across(a, b, parts, part),
        high_across(mirrored(a), mirrored(b), parts, part),
    )
    .unwrap()
}

// How far to the left the part goes.
fn low_across(a: Point, b: Point, parts: u32, part: u32) -> i64
    requires within { part < parts }
    requires few { parts ≤ 64 }
    ensures on_grid { IsGridNumber result }
    ensures value { IsLowOfPart a.x b.x parts part result }
{
    if a.x() <= b.x() {
        right_by(a, share(across(a, b), parts, part))
    } else {
        right_by(b, share(across(b, a), parts, parts - part - 1))
    }
}

// How far to the right it goes.
fn high_across(a: Point, b: Point, parts: u32, part: u32) -> i64
    requires within { part < parts }
    requires few { parts ≤ 64 }
    ensures on_grid { IsGridNumber result }
    ensures value { IsHighOfPart a.x b.x parts part result }
{
    if a.x() <= b.x() {
        left_by(b, share(across(a, b), parts, parts - part - 1))
    } else {
        left_by(a, share(across(b, a), parts, part))
    }
}

// How far it is across from a to b, which is not to the left of a.
fn across(a: Point, b: Point) -> u32
    requires { a.x ≤ℤ b.x }
    ensures { b.x ≡ a.x +ℤ pos result }
{
    (b.x() - a.x()) as u32
}

// The whole steps that so many of so many equal parts of the distance hold.
fn share(distance: u32, parts: u32, count: u32) -> u32
    requires some { 0 < parts }
    requires few { count ≤ parts }
    ensures low { parts * result ≤ distance * count }
    ensures within { result ≤ distance }
{
    (u64::from(distance) * u64::from(count) / u64::from(parts)) as u32
}

// The place across so many steps to the right.
fn right_by(p: Point, steps: u32) -> i64
    ensures { result ≡ p.x +ℤ pos steps }
{
    p.x() + i64::from(steps)
}

// The place across so many steps to the left.
fn left_by(p: Point, steps: u32) -> i64
    ensures { p.x ≡ result +ℤ pos steps }
{
    p.x() - i64::from(steps)
}

// The point with its coordinates exchanged.
fn mirrored(p: Point) -> Point
    ensures { result ≡ turned p }
{
    Point::new(p.y(), p.x()).unwrap()
}
