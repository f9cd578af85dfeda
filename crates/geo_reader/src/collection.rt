//! Geometries of each kind, and collections of geometries.

ghost use Rattle.json_scan.specs.Shown.{tree};
ghost use Rattle.json_scan.specs.Members.{members, holder};
ghost use Rattle.geo_reader.specs.Geometries.{of_kind, geometry_in, geometry_of};
ghost use Rattle.geo_reader.specs.Geometries.{collection_of, collection_geometry};
ghost use Rattle.geo_reader.specs.Gives.{Gives};
ghost use Rattle.geo_reader.specs.SoFar.{geo_so_far};

use crate::fault::GeoFault;
use crate::geometries::{SoFar, point_geometry, points_geometry, polygon_geometry};
use crate::geometry::{Geometry, geometry_kind};
use crate::items::{items_of, object_of};
use crate::member::required;
use json_scan::{Object, Value};

/// Reads a geometry, with those that it holds.
#[cycle(geometry)]
pub fn geometry(value: Value<'_>, so_far: &mut SoFar) -> Result<(), GeoFault>
    ensures { Gives (λ _. geo_so_far so_far.new) result
        (geometry_of (tree value.entry) (geo_so_far so_far.old)) }
{
    geometry_object(object_of(value)?, so_far)
}

/// Reads the geometry of an Object.
#[cycle(geometry)]
pub fn geometry_object(object: Object<'_>, so_far: &mut SoFar) -> Result<(), GeoFault>
    ensures { Gives (λ _. geo_so_far so_far.new) result
        (geometry_in (holder object.entry) (members object.entry)
        (collection_of (members object.entry)) (geo_so_far so_far.old)) }
{
    let kind = geometry_kind(object)?;
    geometry_of_kind(object, kind, so_far)
}

/// Reads a geometry of a kind.
#[cycle(geometry)]
fn geometry_of_kind(object: Object<'_>, kind: Geometry, so_far: &mut SoFar) -> Result<(), GeoFault>
    ensures { Gives (λ _. geo_so_far so_far.new) result
        (of_kind kind (holder object.entry) (members object.entry)
        (collection_of (members object.entry)) (geo_so_far so_far.old)) }
{
    match kind {
        Geometry::Point => point_geometry(object, so_far),
        Geometry::MultiPoint => points_geometry(object, so_far),
        Geometry::Polygon => polygon_geometry(object, false, so_far),
        Geometry::MultiPolygon => polygon_geometry(object, true, so_far),
        Geometry::GeometryCollection => collection(object, so_far),
    }
}

/// Reads the geometries of a collection.
#[cycle(geometry)]
fn collection(object: Object<'_>, so_far: &mut SoFar) -> Result<(), GeoFault>
    ensures { Gives (λ _. geo_so_far so_far.new) result
        (collection_geometry (holder object.entry) (members object.entry)
        (geo_so_far so_far.old)) }
{
    let list = required(object, "geometries")?;
    for value in items_of(list)? {
        geometry(value, so_far)?;
    }
    Ok(())
}
