//! What a geometry is.

ghost use Rattle.std.specs.Prelude.{◌≡◌, codes};
ghost use Rattle.json_scan.specs.Shown.{tree};
ghost use Rattle.json_scan.specs.Members.{members};
ghost use Rattle.geo_text.specs.Shapes.{named_shape, found_shape, shape_of, type_text, value_in};

use crate::lookups::once;
use json_scan::{Object, Value};

/// What a geometry is, by its `type` (RFC 7946). `Nothing` is null.
#[derive(Clone, Copy, Debug, PartialEq, Eq)]
pub enum Shape {
    Nothing,
    Point,
    MultiPoint,
    Polygon,
    MultiPolygon,
    GeometryCollection,
}

/// What the value of `type` names.
fn named_shape(value: Value<'_>) -> Shape
    ensures { result ≡ named_shape (tree value.entry) }
{
    if value.text_is("Point") {
        return Shape::Point;
    }
    if value.text_is("MultiPoint") {
        return Shape::MultiPoint;
    }
    if value.text_is("Polygon") {
        return Shape::Polygon;
    }
    if value.text_is("MultiPolygon") {
        return Shape::MultiPolygon;
    }
    if value.text_is("GeometryCollection") {
        return Shape::GeometryCollection;
    }
    Shape::Nothing
}

/// What the geometry of an Object is.
fn shape_in(object: Object<'_>) -> Shape
    ensures { result ≡ found_shape (value_in (codes "type") (members object.entry)) }
{
    match once(object, "type") {
        Some(value) => named_shape(value),
        None => Shape::Nothing,
    }
}

/// What a geometry is.
pub fn shape_of(value: Value<'_>) -> Shape
    ensures { result ≡ shape_of (tree value.entry) }
{
    match value.as_object() {
        Some(object) => shape_in(object),
        None => Shape::Nothing,
    }
}

/// The text of the value of `type`.
pub fn type_text(shape: Shape) -> &'static [u8]
    ensures { result.now ≡ type_text shape }
{
    match shape {
        Shape::Nothing => b"null",
        Shape::Point => b"\"Point\"",
        Shape::MultiPoint => b"\"MultiPoint\"",
        Shape::Polygon => b"\"Polygon\"",
        Shape::MultiPolygon => b"\"MultiPolygon\"",
        Shape::GeometryCollection => b"\"GeometryCollection\"",
    }
}
