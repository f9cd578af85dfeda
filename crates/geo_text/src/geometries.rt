//! Geometries.

ghost use Rattle.std.specs.Prelude.{◌≡◌, OnOk, codes};
ghost use Rattle.json_scan.specs.Shown.{tree};
ghost use Rattle.json_scan.specs.Members.{members};
ghost use Rattle.geo_text.specs.Shapes.{value_in};
ghost use Rattle.geo_text.specs.Drafts.{where_some, list_added, with_point, with_ring};
ghost use Rattle.geo_text.specs.BuiltText.{member, contents_of, opened, contents, collected};
ghost use Rattle.geo_text.specs.BuiltText.{geometry_list, geometry};
ghost use Rattle.geo_text.specs.Written.{draft_of};

use crate::lists::{parts, points, rings};
use crate::lookups::once;
use crate::shape::{Shape, shape_of, type_text};
use crate::writer::Writer;
use json_scan::{Object, Value};
use std::alloc::AllocError;

/// Writes `{"type":` and what the geometry is.
pub fn open(writer: &mut Writer<'_>, value: Value<'_>) -> Result<(), AllocError>
    ensures { OnOk result (draft_of writer.new ≡ opened (tree value.entry) (draft_of writer.old)) }
{
    writer.write(b"{\"type\":")?;
    writer.write(type_text(shape_of(value)))
}

/// Writes the coordinates of a `Point`.
fn point_member(writer: &mut Writer<'_>, object: Object<'_>) -> Result<(), AllocError>
    ensures { OnOk result (draft_of writer.new
        ≡ where_some (value_in (codes "coordinates") (members object.entry))
        (member (codes ",\"coordinates\":") (λ t. with_point)) (draft_of writer.old)) }
{
    if once(object, "coordinates").is_none() {
        return Ok(());
    }
    writer.write(b",\"coordinates\":")?;
    writer.point()
}

/// Writes the coordinates of a `MultiPoint`.
fn points_member(writer: &mut Writer<'_>, object: Object<'_>) -> Result<(), AllocError>
    ensures { OnOk result (draft_of writer.new
        ≡ where_some (value_in (codes "coordinates") (members object.entry))
        (member (codes ",\"coordinates\":") (list_added (λ t. with_point)))
        (draft_of writer.old)) }
{
    let Some(value) = once(object, "coordinates") else {
        return Ok(());
    };
    writer.write(b",\"coordinates\":")?;
    points(writer, value)
}

/// Writes the rings of a `Polygon`.
fn rings_member(writer: &mut Writer<'_>, object: Object<'_>) -> Result<(), AllocError>
    ensures { OnOk result (draft_of writer.new
        ≡ where_some (value_in (codes "coordinates") (members object.entry))
        (member (codes ",\"arcs\":") (list_added (λ t. with_ring))) (draft_of writer.old)) }
{
    let Some(value) = once(object, "coordinates") else {
        return Ok(());
    };
    writer.write(b",\"arcs\":")?;
    rings(writer, value)
}

/// Writes the rings of the parts of a `MultiPolygon`.
fn parts_member(writer: &mut Writer<'_>, object: Object<'_>) -> Result<(), AllocError>
    ensures { OnOk result (draft_of writer.new
        ≡ where_some (value_in (codes "coordinates") (members object.entry))
        (member (codes ",\"arcs\":") (list_added (list_added (λ t. with_ring))))
        (draft_of writer.old)) }
{
    let Some(value) = once(object, "coordinates") else {
        return Ok(());
    };
    writer.write(b",\"arcs\":")?;
    parts(writer, value)
}

/// Writes a geometry, with those that it holds.
#[cycle(geometry)]
pub fn geometry(writer: &mut Writer<'_>, value: Value<'_>) -> Result<(), AllocError>
    ensures { OnOk result (draft_of writer.new
        ≡ geometry (tree value.entry) (draft_of writer.old)) }
{
    open(writer, value)?;
    contents(writer, value)?;
    writer.write(b"}")
}

/// Writes what a geometry holds.
#[cycle(geometry)]
pub fn contents(writer: &mut Writer<'_>, value: Value<'_>) -> Result<(), AllocError>
    ensures { OnOk result (draft_of writer.new
        ≡ contents (tree value.entry) (draft_of writer.old)) }
{
    match value.as_object() {
        Some(object) => contents_of(writer, shape_of(value), object),
        None => Ok(()),
    }
}

/// Writes what a geometry of a shape holds.
#[cycle(geometry)]
fn contents_of(writer: &mut Writer<'_>, shape: Shape, object: Object<'_>) -> Result<(), AllocError>
    ensures { OnOk result (draft_of writer.new
        ≡ contents_of shape (members object.entry) (collected (members object.entry))
        (draft_of writer.old)) }
{
    match shape {
        Shape::Nothing => Ok(()),
        Shape::Point => point_member(writer, object),
        Shape::MultiPoint => points_member(writer, object),
        Shape::Polygon => rings_member(writer, object),
        Shape::MultiPolygon => parts_member(writer, object),
        Shape::GeometryCollection => collection(writer, object),
    }
}

/// Writes the geometries of a collection.
#[cycle(geometry)]
fn collection(writer: &mut Writer<'_>, object: Object<'_>) -> Result<(), AllocError>
    ensures { OnOk result (draft_of writer.new
        ≡ where_some (value_in (codes "geometries") (members object.entry))
        (member (codes ",\"geometries\":") (λ t. collected (members object.entry)))
        (draft_of writer.old)) }
{
    let Some(list) = once(object, "geometries") else {
        return Ok(());
    };
    writer.write(b",\"geometries\":")?;
    geometries(writer, list)
}

/// Writes the list of the geometries of a List.
#[cycle(geometry)]
fn geometries(writer: &mut Writer<'_>, value: Value<'_>) -> Result<(), AllocError>
    ensures { OnOk result (draft_of writer.new
        ≡ geometry_list (tree value.entry) (draft_of writer.old)) }
{
    let Some(items) = value.as_list() else {
        return Ok(());
    };
    writer.write(b"[")?;
    let mut first = true;
    for item in items {
        writer.comma(first)?;
        first = false;
        geometry(writer, item)?;
    }
    writer.write(b"]")
}
