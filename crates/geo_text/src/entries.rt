//! The entries of the text: one for each feature, or one for a geometry at the top.

ghost use Rattle.std.specs.Prelude.{◌≡◌, OnOk, codes};
ghost use Rattle.json_scan.specs.Shown.{tree};
ghost use Rattle.json_scan.specs.Members.{members};
ghost use Rattle.geo_text.specs.Shapes.{value_in};
ghost use Rattle.geo_text.specs.Drafts.{where_some, list_added};
ghost use Rattle.geo_text.specs.BuiltText.{feature, feature_in, geometry, alone, by_type, entries};
ghost use Rattle.geo_text.specs.Written.{draft_of};

use crate::features::{feature_in, features};
use crate::geometries::geometry;
use crate::lookups::once;
use crate::writer::Writer;
use json_scan::{Object, Value};
use std::alloc::AllocError;

/// Writes the list of the features of a collection.
fn collection(writer: &mut Writer<'_>, input: &[u8], object: Object<'_>) -> Result<(), AllocError>
    ensures { OnOk result (draft_of writer.new
        ≡ where_some (value_in (codes "features") (members object.entry))
        (list_added (feature input.now)) (draft_of writer.old)) }
{
    match once(object, "features") {
        Some(list) => features(writer, input, list),
        None => Ok(()),
    }
}

/// Writes the list of one feature, that of an Object.
fn lone_feature(writer: &mut Writer<'_>, input: &[u8], object: Object<'_>) -> Result<(), AllocError>
    ensures { OnOk result (draft_of writer.new
        ≡ alone (feature_in input.now (members object.entry)) (draft_of writer.old)) }
{
    writer.write(b"[")?;
    feature_in(writer, input, object)?;
    writer.write(b"]")
}

/// Writes the list of one geometry.
fn lone_geometry(writer: &mut Writer<'_>, value: Value<'_>) -> Result<(), AllocError>
    ensures { OnOk result (draft_of writer.new
        ≡ alone (geometry (tree value.entry)) (draft_of writer.old)) }
{
    writer.write(b"[")?;
    geometry(writer, value)?;
    writer.write(b"]")
}

/// Writes the list of the entries of a value that is this Object, by the value of `type`.
fn by_type(
    writer: &mut Writer<'_>,
    input: &[u8],
    value: Value<'_>,
    object: Object<'_>,
    kind: Value<'_>,
) -> Result<(), AllocError>
    ensures { OnOk result (draft_of writer.new
        ≡ by_type input.now (tree value.entry) (members object.entry) (tree kind.entry)
        (draft_of writer.old)) }
{
    if kind.text_is("FeatureCollection") {
        return collection(writer, input, object);
    }
    if kind.text_is("Feature") {
        return lone_feature(writer, input, object);
    }
    lone_geometry(writer, value)
}

/// Writes the list of the entries of the value of a text.
pub fn entries(writer: &mut Writer<'_>, input: &[u8], value: Value<'_>) -> Result<(), AllocError>
    ensures { OnOk result (draft_of writer.new
        ≡ entries input.now (tree value.entry) (draft_of writer.old)) }
{
    let Some(object) = value.as_object() else {
        return Ok(());
    };
    match once(object, "type") {
        Some(kind) => by_type(writer, input, value, object, kind),
        None => Ok(()),
    }
}
