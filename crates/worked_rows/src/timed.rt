//! Runs on maps that are made: large ones, which are to end in time, and one that is checked in two
//! ways.

use crate::call::{Ended, ended_on, run_call};
use row_reader::{Call, RowsError, add_text};
use std::alloc::{AllocError, Global};
use std::fmt::Write;

// How many feature points stand beside the line, and how many of them in a row.
const POINTS: u32 = 600000;

const ROW: u32 = 1022;

// The last place of the line.
const LAST: u32 = 1023;

// What the words of the line leave, run over no text.
fn made(alloc: Global, line: &str) -> Result<Ended, RowsError> {
    Ok(run_call(alloc, Call::new(alloc, line, Vec::new(alloc))?))
}

/// Whether the map that the words make is thinned.
pub fn is_thinned_in_time(alloc: Global, line: &str) -> Result<bool, RowsError> {
    let map = made(alloc, line)?;
    let thinned = ended_on(alloc, "simplify 3 -", "-", map.out())?;
    Ok(map.is_done() && thinned.is_done())
}

// What the check of a written text leaves.
fn checked(alloc: Global, map: &[u8], out: &[u8], cert: &[u8]) -> Result<Ended, RowsError> {
    let mut texts = Vec::new(alloc);
    add_text(alloc, &mut texts, "map.json", map)?;
    add_text(alloc, &mut texts, "out.json", out)?;
    add_text(alloc, &mut texts, "cert.json", cert)?;
    let call = Call::new(alloc, "check 3 map.json out.json cert.json", texts)?;
    Ok(run_call(alloc, call))
}

/// Whether the check of a thinned map answers yes, and that of the map itself with the same
/// certificate does not.
pub fn checks_yes(alloc: Global) -> Result<bool, RowsError> {
    let map = made(alloc, "make 12 12 7")?;
    let out = ended_on(alloc, "simplify 3 -", "-", map.out())?;
    let cert = ended_on(alloc, "layers 3 -", "-", map.out())?;
    let right = checked(alloc, map.out(), out.out(), cert.out())?;
    let wrong = checked(alloc, map.out(), map.out(), cert.out())?;
    Ok(right.is(0, b"yes\n".as_slice(), b"".as_slice()) && wrong.status.code() == 1)
}

/// Whether the feature points of a map lie in the same polygons before and after it is thinned.
pub fn has_same_faces(alloc: Global) -> Result<bool, RowsError> {
    let map = made(alloc, "make 12 12 7")?;
    let thinned = ended_on(alloc, "simplify 3 -", "-", map.out())?;
    let before = ended_on(alloc, "faces -", "-", map.out())?;
    let after = ended_on(alloc, "faces -", "-", thinned.out())?;
    Ok(before.is_done() && after.is_done() && before.out() == after.out())
}

// Adds the feature points, row by row above the line.
fn push_points(text: &mut String) -> Result<(), AllocError> {
    for point in 0..POINTS {
        if point > 0 {
            text.push_str(",")?;
        }
        let x = 1 + point % ROW;
        let y = 1 + point / ROW;
        write!(text, "[{x},{y}]")?;
    }
    Ok(())
}

// Adds the positions of the line.
fn push_line(text: &mut String) -> Result<(), AllocError> {
    for x in 0..LAST {
        write!(text, "[{x},0],")?;
    }
    write!(text, "[{LAST},0]")
}

// The text of the feature points without its arcs.
fn points_text(alloc: Global) -> Result<String, AllocError> {
    let mut text = String::from_str(
        alloc,
        r#"{"type":"Topology","objects":{"t":{"type":"MultiPoint","coordinates":["#,
    )?;
    push_points(&mut text)?;
    text.push_str(r#"]}},"arcs":"#)?;
    Ok(text)
}

/// Whether a line of one arc is thinned to its ends among many feature points beside it.
pub fn is_thinned_among_points(alloc: Global) -> Result<bool, RowsError> {
    let mut expected = points_text(alloc)?;
    let mut text = expected.clone()?;
    text.push_str("[[")?;
    push_line(&mut text)?;
    text.push_str("]]}")?;
    expected.push_str("[[[0,0],[1023,0]]]}")?;
    let thinned = ended_on(alloc, "simplify 0 -", "-", text.as_bytes())?;
    Ok(thinned.is(0, expected.as_bytes(), b"".as_slice()))
}
