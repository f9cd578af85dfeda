//! What a geometry is.

ghost use Rattle.std.specs.Prelude.{◌≡◌};
ghost use Rattle.json_scan.specs.Shown.{tree};
ghost use Rattle.json_scan.specs.Members.{members, holder};
ghost use Rattle.geo_reader.specs.Geometries.{named_by, geometry_kind};

use crate::fault::{GeoFault, GeoKind, wrong};
use crate::member::required;
use json_scan::{Object, Value};

/// What a geometry is, of the kinds that are read.
#[derive(Clone, Copy, Debug, PartialEq, Eq)]
pub enum Geometry {
    Point,
    MultiPoint,
    Polygon,
    MultiPolygon,
    GeometryCollection,
}

/// The geometry that a Text names, if it is one of the five names.
fn named_by(value: Value<'_>) -> Option<Geometry>
    ensures { result ≡ named_by (tree value.entry) }
{
    if value.text_is("Point") {
        return Some(Geometry::Point);
    }
    if value.text_is("MultiPoint") {
        return Some(Geometry::MultiPoint);
    }
    if value.text_is("Polygon") {
        return Some(Geometry::Polygon);
    }
    if value.text_is("MultiPolygon") {
        return Some(Geometry::MultiPolygon);
    }
    if value.text_is("GeometryCollection") {
        return Some(Geometry::GeometryCollection);
    }
    None
}

/// What the geometry of an Object is.
pub fn geometry_kind(object: Object<'_>) -> Result<Geometry, GeoFault>
    ensures { result ≡ geometry_kind (holder object.entry) (members object.entry) }
{
    let value = required(object, "type")?;
    match named_by(value) {
        Some(name) => Ok(name),
        None => Err(wrong(GeoKind::UnknownType, value)),
    }
}
