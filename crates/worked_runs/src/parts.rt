//! What the tests have in common.
ghost use Rattle.std.specs.Prelude.{All, IsTrue};
ghost use Rattle.grid_exact.specs.Weights.{StaysOnGrid};

use arc_map::ArcMap;
use grid_exact::{Point, Weights};
use json_scan::{Scan, scan};
use std::alloc::Global;
use std::test::Fail;

// The point at these coordinates.
pub fn point(x: i64, y: i64) -> Result<Point, Fail> {
    Ok(Point::new(x, y).ok_or("a point of the grid")?)
}

// Whether the weights leave each position of each arc on the grid.
pub fn stays_on_grid(weights: Weights, map: &ArcMap) -> bool
    ensures { IsTrue result → All (All (StaysOnGrid weights)) map.now.arcs }
{
    for arc in 0..map.arc_count() {
        match weights.first_off(map.arc(arc)) {
            None => {}
            Some(_) => return false,
        }
    }
    true
}

// The values of a short text, if it is JSON.
pub fn scanned<'a>(alloc: Global, text: &'a str) -> Option<Scan<'a>> {
    if text.len() > 4096 {
        return None;
    }
    scan(alloc, text.as_bytes()).ok()
}
