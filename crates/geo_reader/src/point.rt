//! Positions, and the points that they are.

ghost use Rattle.std.specs.Prelude.{◌≡◌};
ghost use Rattle.json_scan.specs.Shown.{tree};
ghost use Rattle.geo_reader.specs.Rings.{position_fault, position_at};
ghost use Rattle.geo_reader.specs.Geometries.{point_added, points_added};
ghost use Rattle.geo_reader.specs.Gives.{Gives};

use crate::fault::{GeoFault, GeoKind, too_many};
use crate::items::items_of;
use grid_exact::Point;
use json_scan::Value;
use topo_reader::{ReadFault, What, position};

const MAX_POINTS: usize = 1048576;

/// The fault of a position.
fn position_fault(fault: ReadFault) -> GeoFault
    ensures { result ≡ position_fault fault }
{
    match fault {
        ReadFault::Shape { at, .. } => GeoFault::Shape {
            kind: GeoKind::WrongType,
            at,
        },
        ReadFault::Off { kind, at } => GeoFault::Off { kind, at },
        ReadFault::TooMany { what, at } => GeoFault::TooMany { what, at },
        ReadFault::NoMemory => GeoFault::NoMemory,
    }
}

/// The position that a value is.
pub fn position_at(value: Value<'_>) -> Result<Point, GeoFault>
    ensures { result ≡ position_at (tree value.entry) }
{
    match position(value, Point::origin()) {
        Ok(point) => Ok(point),
        Err(fault) => Err(position_fault(fault)),
    }
}

/// Adds the point that a value is.
pub fn add_point(value: Value<'_>, points: &mut Vec<Point>) -> Result<(), GeoFault>
    ensures { Gives (λ _. points.new.items) result
        (point_added (tree value.entry) points.old.items) }
{
    if points.len() >= MAX_POINTS {
        return Err(too_many(What::Points, value));
    }
    let point = position_at(value)?;
    points.push(point)?;
    Ok(())
}

/// Adds the points that the values of a List are.
pub fn add_points(value: Value<'_>, points: &mut Vec<Point>) -> Result<(), GeoFault>
    ensures { Gives (λ _. points.new.items) result
        (points_added (tree value.entry) points.old.items) }
{
    for item in items_of(value)? {
        add_point(item, points)?;
    }
    Ok(())
}
