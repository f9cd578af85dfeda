//! Geometries of points and of polygons.

ghost use Rattle.std.specs.Prelude.{◌≡◌};
ghost use Rattle.json_scan.specs.Members.{members, holder};
ghost use Rattle.geo_reader.specs.Geo.{no_geo};
ghost use Rattle.geo_reader.specs.Rings.{parts_added};
ghost use Rattle.geo_reader.specs.Geometries.{point_added, points_added};
ghost use Rattle.geo_reader.specs.Geometries.{with_points, with_polygon};
ghost use Rattle.geo_reader.specs.Gives.{Gives};
ghost use Rattle.geo_reader.specs.SoFar.{geo_so_far};

use crate::fault::GeoFault;
use crate::member::required;
use crate::point::{add_point, add_points};
use crate::ring::add_parts;
use crate::rings::RingList;
use grid_exact::Point;
use json_scan::Object;
use std::alloc::Global;
use topo_reader::What;

const MAX_POLYGONS: usize = 1048576;

/// What was read so far. The ring that is read stands in `ring`.
#[derive(Drop)]
pub struct SoFar {
    pub rings: RingList,
    pub points: Vec<Point>,
    pub polygons: Vec<u32>,
    pub ring: Vec<Point>,
}

impl SoFar {
    /// Nothing yet.
    pub fn new(alloc: Global) -> SoFar
        ensures { geo_so_far result ≡ no_geo }
    {
        SoFar {
            rings: RingList::new(alloc),
            points: Vec::new(alloc),
            polygons: Vec::new(alloc),
            ring: Vec::new(alloc),
        }
    }
}

/// Reads a `Point`.
pub fn point_geometry(object: Object<'_>, so_far: &mut SoFar) -> Result<(), GeoFault>
    ensures { Gives (λ _. geo_so_far so_far.new) result
        (with_points point_added (holder object.entry) (members object.entry)
        (geo_so_far so_far.old)) }
{
    let value = required(object, "coordinates")?;
    add_point(value, &mut so_far.points)
}

/// Reads a `MultiPoint`.
pub fn points_geometry(object: Object<'_>, so_far: &mut SoFar) -> Result<(), GeoFault>
    ensures { Gives (λ _. geo_so_far so_far.new) result
        (with_points points_added (holder object.entry) (members object.entry)
        (geo_so_far so_far.old)) }
{
    let value = required(object, "coordinates")?;
    add_points(value, &mut so_far.points)
}

/// Reads a `Polygon`, or a `MultiPolygon` of several, as one polygon. It is counted before its
/// coordinates are looked for.
pub fn polygon_geometry(
    object: Object<'_>,
    several: bool,
    so_far: &mut SoFar,
) -> Result<(), GeoFault>
    ensures { Gives (λ _. geo_so_far so_far.new) result
        (with_polygon (parts_added several) (holder object.entry) (members object.entry)
        (geo_so_far so_far.old)) }
{
    if so_far.polygons.len() >= MAX_POLYGONS {
        return Err(GeoFault::TooMany {
            what: What::Polygons,
            at: object.start(),
        });
    }
    let value = required(object, "coordinates")?;
    let before = so_far.rings.count();
    add_parts(value, several, &mut so_far.rings, &mut so_far.ring)?;
    so_far.polygons.push(so_far.rings.count() - before)?;
    Ok(())
}
