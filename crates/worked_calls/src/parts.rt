//! What the tests have in common.

use grid_exact::Point;
use std::alloc::Global;
use std::test::Fail;
use sweep_index::Walk;

// The point at these coordinates.
pub fn point(x: i64, y: i64) -> Result<Point, Fail> {
    Ok(Point::new(x, y).ok_or("a point of the grid")?)
}

// The numbers of the items of a walk, rising.
pub fn numbers(alloc: Global, walk: Walk<'_>) -> Result<Vec<u32>, Fail> {
    let mut numbers = Vec::new(alloc);
    let mut walk = walk;
    while let Some((number, _)) = walk.next() {
        numbers.push(number)?;
    }
    numbers.sort_unstable();
    Ok(numbers)
}
