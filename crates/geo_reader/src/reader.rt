//! A whole text.

ghost use Rattle.std.specs.Prelude.{◌≡◌, Ok, IfOk, IfErr};
ghost use Rattle.json_scan.specs.Grammar.{Document, IsJson};
ghost use Rattle.json_scan.specs.Tree.{document_tree};
ghost use Rattle.json_scan.specs.Shown.{tree};
ghost use Rattle.json_scan.specs.Members.{members, holder};
ghost use Rattle.geo_reader.specs.Geo.{IsGeo, no_geo};
ghost use Rattle.geo_reader.specs.GeoJson.{by_type, geojson_in, geojson_of};
ghost use Rattle.geo_reader.specs.Gives.{Gives, Faults};
ghost use Rattle.geo_reader.specs.SoFar.{geo_so_far};

use crate::collection::geometry_object;
use crate::fault::{GeoFault, GeoKind, wrong};
use crate::feature::{feature_object, features};
use crate::geo::GeoMap;
use crate::geometries::SoFar;
use crate::member::required;
use json_scan::{Object, Scan, Value, value_of};
use std::alloc::Global;

/// Reads features, a feature or a geometry, by the value of `type`.
fn by_type(kind: Value<'_>, object: Object<'_>, so_far: &mut SoFar) -> Result<(), GeoFault>
    ensures { Gives (λ _. geo_so_far so_far.new) result
        (by_type (tree kind.entry) (holder object.entry) (members object.entry)
        (geo_so_far so_far.old)) }
{
    if kind.text_is("FeatureCollection") {
        return features(object, so_far);
    }
    if kind.text_is("Feature") {
        return feature_object(object, so_far);
    }
    geometry_object(object, so_far)
}

/// Reads the Object that a text is.
fn read_object(object: Object<'_>, so_far: &mut SoFar) -> Result<(), GeoFault>
    ensures { Gives (λ _. geo_so_far so_far.new) result
        (geojson_in (holder object.entry) (members object.entry) (geo_so_far so_far.old)) }
{
    by_type(required(object, "type")?, object, so_far)
}

/// Reads what a value holds.
fn read_value(alloc: Global, value: Value<'_>) -> Result<GeoMap, GeoFault>
    ensures gives { Gives (λ geo. geo) result (geojson_of (tree value.entry)) }
    ensures is_geo { IfOk result IsGeo }
{
    let Some(object) = value.as_object() else {
        return Err(wrong(GeoKind::NotObject, value));
    };
    let mut so_far = SoFar::new(alloc);
    read_object(object, &mut so_far)?;
    Ok(GeoMap::new(so_far.rings, so_far.points, so_far.polygons))
}

/// Reads what a text of GeoJSON (RFC 7946) holds, or gives the first fault in the order of the
/// walk, with its place in bytes from 0: a value is walked whole before the next member is looked
/// for, so that a fault in `geometry` comes before one in `id`. `NoMemory` is want of memory.
pub fn read_geo(alloc: Global, scan: &Scan<'_>) -> Result<GeoMap, GeoFault>
    ensures geo { (d : Document) → IsJson 64 scan.now.bytes scan.now.nodes d
        → IfOk result (λ geo. geojson_of (document_tree d) ≡ Ok geo) }
    ensures fault { (d : Document) → IsJson 64 scan.now.bytes scan.now.nodes d
        → IfErr result (Faults (geojson_of (document_tree d))) }
    ensures is_geo { IfOk result IsGeo }
{
    read_value(alloc, value_of(scan))
}
