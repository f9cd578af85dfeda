//! Features.

ghost use Rattle.std.specs.Prelude.{◌≡◌, OnOk, codes};
ghost use Rattle.json_scan.specs.Shown.{tree};
ghost use Rattle.json_scan.specs.Members.{members};
ghost use Rattle.geo_text.specs.Shapes.{value_in};
ghost use Rattle.geo_text.specs.Drafts.{where_some, list_added};
ghost use Rattle.geo_text.specs.BuiltText.{member, as_it_stands, if_object, attributes};
ghost use Rattle.geo_text.specs.BuiltText.{feature_in, feature, contents, opened};
ghost use Rattle.geo_text.specs.Written.{draft_of};

use crate::geometries::{contents, open};
use crate::lookups::{bytes_of, once};
use crate::writer::Writer;
use json_scan::{Object, Value};
use std::alloc::AllocError;

/// Writes the `id`, as it stands in the input.
fn id(writer: &mut Writer<'_>, input: &[u8], object: Object<'_>) -> Result<(), AllocError>
    ensures { OnOk result (draft_of writer.new
        ≡ where_some (value_in (codes "id") (members object.entry))
        (member (codes ",\"id\":") (as_it_stands input.now)) (draft_of writer.old)) }
{
    let Some(value) = once(object, "id") else {
        return Ok(());
    };
    writer.write(b",\"id\":")?;
    writer.write(bytes_of(input, value))
}

/// Writes the `properties` that are an Object, as they stand in the input.
fn properties(writer: &mut Writer<'_>, input: &[u8], value: Value<'_>) -> Result<(), AllocError>
    ensures { OnOk result (draft_of writer.new
        ≡ if_object (member (codes ",\"properties\":") (as_it_stands input.now))
        (tree value.entry) (draft_of writer.old)) }
{
    if value.as_object().is_none() {
        return Ok(());
    }
    writer.write(b",\"properties\":")?;
    writer.write(bytes_of(input, value))
}

/// Writes the `id` and the `properties` of a feature.
fn attributes(writer: &mut Writer<'_>, input: &[u8], object: Object<'_>) -> Result<(), AllocError>
    ensures { OnOk result (draft_of writer.new
        ≡ attributes input.now (members object.entry) (draft_of writer.old)) }
{
    id(writer, input, object)?;
    match once(object, "properties") {
        Some(value) => properties(writer, input, value),
        None => Ok(()),
    }
}

/// Writes the feature of an Object.
pub fn feature_in(
    writer: &mut Writer<'_>,
    input: &[u8],
    object: Object<'_>,
) -> Result<(), AllocError>
    ensures { OnOk result (draft_of writer.new
        ≡ feature_in input.now (members object.entry) (draft_of writer.old)) }
{
    let Some(value) = once(object, "geometry") else {
        return Ok(());
    };
    open(writer, value)?;
    attributes(writer, input, object)?;
    contents(writer, value)?;
    writer.write(b"}")
}

/// Writes a feature.
fn feature(writer: &mut Writer<'_>, input: &[u8], value: Value<'_>) -> Result<(), AllocError>
    ensures { OnOk result (draft_of writer.new
        ≡ feature input.now (tree value.entry) (draft_of writer.old)) }
{
    match value.as_object() {
        Some(object) => feature_in(writer, input, object),
        None => Ok(()),
    }
}

/// Writes the list of the features of a List.
pub fn features(writer: &mut Writer<'_>, input: &[u8], value: Value<'_>) -> Result<(), AllocError>
    ensures { OnOk result (draft_of writer.new
        ≡ list_added (feature input.now) (tree value.entry) (draft_of writer.old)) }
{
    let Some(items) = value.as_list() else {
        return Ok(());
    };
    writer.write(b"[")?;
    let mut first = true;
    for item in items {
        writer.comma(first)?;
        first = false;
        feature(writer, input, item)?;
    }
    writer.write(b"]")
}
