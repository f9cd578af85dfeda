//! Rings, as they are read.

ghost use Rattle.std.specs.Prelude.{◌≡◌, ◌≤◌, IfOk, length};
ghost use Rattle.json_scan.specs.Shown.{tree};
ghost use Rattle.json_scan.specs.Left.{trees};
ghost use Rattle.geo_reader.specs.Rings.{positions_added, is_short, is_closed};
ghost use Rattle.geo_reader.specs.Rings.{ring_of, ring_added, polygon_added};
ghost use Rattle.geo_reader.specs.Rings.{polygons_added, parts_added};
ghost use Rattle.geo_reader.specs.Gives.{Gives};

use crate::fault::{GeoFault, GeoKind, too_many, wrong};
use crate::items::items_of;
use crate::point::position_at;
use crate::rings::RingList;
use grid_exact::Point;
use json_scan::{Value, Values};
use topo_reader::What;

const MAX_POSITIONS: usize = 524288;

/// Whether there are fewer than the four values of the shortest ring.
fn is_short(mut items: Values<'_>) -> bool
    ensures { result ≡ is_short (trees items.entry) }
{
    items.next().is_none()
        || items.next().is_none()
        || items.next().is_none()
        || items.next().is_none()
}

/// Whether the last position is the first.
fn is_closed(ring: &[Point]) -> bool
    ensures { result ≡ is_closed ring.now }
{
    match (ring.first(), ring.last()) {
        (Some(first), Some(last)) => last.x() == first.x() && last.y() == first.y(),
        _ => true,
    }
}

/// Adds the positions that values are to a ring, behind so many positions of other rings.
fn add_positions(items: Values<'_>, before: u32, ring: &mut Vec<Point>) -> Result<(), GeoFault>
    ensures { Gives (λ _. ring.new.items) result
        (positions_added before (trees items.entry) ring.old.items) }
{
    for value in items {
        if before as usize + ring.len() >= MAX_POSITIONS {
            return Err(too_many(What::Positions, value));
        }
        let point = position_at(value)?;
        ring.push(point)?;
    }
    Ok(())
}

/// Reads the ring that a value is, behind so many positions of other rings.
fn read_ring(value: Value<'_>, before: u32, ring: &mut Vec<Point>) -> Result<(), GeoFault>
    ensures { Gives (λ _. ring.new.items) result (ring_of before (tree value.entry)) }
{
    if is_short(items_of(value)?) {
        return Err(wrong(GeoKind::ShortRing, value));
    }
    ring.clear();
    add_positions(items_of(value)?, before, ring)?;
    if !is_closed(ring) {
        return Err(wrong(GeoKind::OpenRing, value));
    }
    Ok(())
}

/// Adds the ring that a value is. It is read into a list of its own first.
fn add_ring(value: Value<'_>, rings: &mut RingList, ring: &mut Vec<Point>) -> Result<(), GeoFault>
    ensures { Gives (λ _. rings.new) result (ring_added (tree value.entry) rings.old) }
{
    read_ring(value, rings.position_count(), ring)?;
    rings.push(ring)?;
    Ok(())
}

/// Adds the rings of a `Polygon`.
fn add_polygon(
    value: Value<'_>,
    rings: &mut RingList,
    ring: &mut Vec<Point>,
) -> Result<(), GeoFault>
    ensures { Gives (λ _. rings.new) result (polygon_added (tree value.entry) rings.old) }
{
    for item in items_of(value)? {
        add_ring(item, rings, ring)?;
    }
    Ok(())
}

/// Adds the rings of the polygons of a `MultiPolygon`.
fn add_polygons(
    value: Value<'_>,
    rings: &mut RingList,
    ring: &mut Vec<Point>,
) -> Result<(), GeoFault>
    ensures { Gives (λ _. rings.new) result (polygons_added (tree value.entry) rings.old) }
{
    for item in items_of(value)? {
        add_polygon(item, rings, ring)?;
    }
    Ok(())
}

/// Adds the rings of a polygon, which may have several parts.
pub fn add_parts(
    value: Value<'_>,
    several: bool,
    rings: &mut RingList,
    ring: &mut Vec<Point>,
) -> Result<(), GeoFault>
    ensures more { IfOk result (λ _. length rings.old ≤ length rings.new) }
    ensures gives { Gives (λ _. rings.new) result
        (parts_added several (tree value.entry) rings.old) }
{
    if several {
        add_polygons(value, rings, ring)
    } else {
        add_polygon(value, rings, ring)
    }
}
