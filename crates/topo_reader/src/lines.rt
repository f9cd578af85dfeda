//! Lines, of which only the references are counted.

ghost use Rattle.std.specs.Prelude.{◌≤◌, ◌^◌, length};
ghost use Rattle.json_scan.specs.Shown.{tree};
ghost use Rattle.json_scan.specs.Left.{trees};
ghost use Rattle.topo_reader.specs.Arcs.{places_of};
ghost use Rattle.topo_reader.specs.Geometries.{line_of, lines_of};
ghost use Rattle.topo_reader.specs.Gives.{Gives};

use crate::fault::ReadFault;
use crate::items::items_of;
use crate::line::line;
use grid_exact::Point;
use json_scan::{Value, Values};

/// Reads a line into a list of its own, and gives how many references were counted.
pub fn line_value(
    value: Value<'_>,
    arcs: &[Vec<Point>],
    counted: u32,
    numbers: &mut Vec<u32>,
) -> Result<u32, ReadFault>
    requires { length arcs.now ≤ 2 ^ 20 }
    ensures { Gives (λ count. count) result
        (line_of (places_of arcs.now) (tree value.entry) counted) }
{
    numbers.clear();
    match line(items_of(value)?, arcs, counted, numbers) {
        Ok(ends) => Ok(ends.references),
        Err(fault) => Err(fault),
    }
}

/// Reads lines, and gives how many references were counted.
pub fn lines(
    items: Values<'_>,
    arcs: &[Vec<Point>],
    counted: u32,
    numbers: &mut Vec<u32>,
) -> Result<u32, ReadFault>
    requires { length arcs.now ≤ 2 ^ 20 }
    ensures { Gives (λ count. count) result
        (lines_of (places_of arcs.now) (trees items.entry) counted) }
{
    let mut count = counted;
    for value in items {
        count = line_value(value, arcs, count, numbers)?;
    }
    Ok(count)
}
