//! Maps on which a simplifier can turn quadratic, each made by a rule and thinned in time.
ghost use Rattle.std.specs.Prelude.{◌≤ℤ◌, ◌+ℤ◌, pos};

use crate::call::ended_on;
use row_reader::RowsError;
use std::alloc::{AllocError, Global};
use std::fmt::Write;

/// How the arcs of a map lie.
#[derive(Clone, Copy)]
pub enum Shape {
    /// Squares of 200 edges round one middle, as contours are.
    Nested,
    /// Arcs of one edge from one place to places of a line.
    Hub,
    /// An arc to and fro between two lines.
    Zigzag,
    /// Arcs at 45 degrees that wiggle.
    Slanting,
}

// The place after so many edges of the square round the origin that reaches 25 to each side.
fn on_square(at: i64) -> (i64, i64) {
    let along = at % 50 - 25;
    match at / 50 % 4 {
        0 => (along, -25),
        1 => (25, along),
        2 => (-along, 25),
        _ => (-25, -along),
    }
}

// How far a vertex stands from its line: at most 20, and differently along each axis.
fn wiggle(at: i64, axis: i64) -> i64
    ensures least { pos 0 ≤ℤ (result +ℤ pos 20) }
    ensures most { result ≤ℤ pos 20 }
{
    at.saturating_mul(axis).rem_euclid(41) - 20
}

// The position number `at` of the arc number `arc`.
fn position(shape: Shape, arc: u32, at: u32) -> (i64, i64) {
    let arc = i64::from(arc);
    let at = i64::from(at);
    match shape {
        Shape::Nested => {
            let (x, y) = on_square(at);
            (x.saturating_mul(arc + 1), y.saturating_mul(arc + 1))
        }
        Shape::Hub if at == 0 => (0, 0),
        Shape::Hub => (arc, 1000),
        Shape::Zigzag => (at, at % 2 * 10),
        Shape::Slanting => {
            let middle = at * 60;
            let beside = arc * 400;
            (
                middle - beside + wiggle(at, 7919),
                middle + beside + wiggle(at, 104729),
            )
        }
    }
}

// Adds the arc number `arc` of so many positions.
fn push_arc(text: &mut String, shape: Shape, arc: u32, positions: u32) -> Result<(), AllocError> {
    text.push_str("[")?;
    for at in 0..positions {
        if at > 0 {
            text.push_str(",")?;
        }
        let (x, y) = position(shape, arc, at);
        write!(text, "[{x},{y}]")?;
    }
    text.push_str("]")
}

// The text of so many arcs, each of so many positions.
fn text_of(alloc: Global, shape: Shape, arcs: u32, positions: u32) -> Result<String, AllocError> {
    let mut text = String::from_str(alloc, r#"{"type":"Topology","objects":{},"arcs":["#)?;
    for arc in 0..arcs {
        if arc > 0 {
            text.push_str(",")?;
        }
        push_arc(&mut text, shape, arc, positions)?;
    }
    text.push_str("]}")?;
    Ok(text)
}

/// Whether the map of so many arcs, each of so many positions, is thinned within 20 grid units.
pub fn is_hard_thinned(
    alloc: Global,
    shape: Shape,
    arcs: u32,
    positions: u32,
) -> Result<bool, RowsError> {
    let text = text_of(alloc, shape, arcs, positions)?;
    Ok(ended_on(alloc, "simplify 20 -", "-", text.as_bytes())?.is_done())
}
