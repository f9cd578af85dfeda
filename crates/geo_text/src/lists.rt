//! Lists of points and of rings.

ghost use Rattle.std.specs.Prelude.{◌≡◌, OnOk};
ghost use Rattle.json_scan.specs.Shown.{tree};
ghost use Rattle.geo_text.specs.Drafts.{list_added, with_point, with_ring};
ghost use Rattle.geo_text.specs.Written.{draft_of};

use crate::writer::Writer;
use json_scan::Value;
use std::alloc::AllocError;

/// Writes the list of a point for each value of a List.
pub fn points(writer: &mut Writer<'_>, value: Value<'_>) -> Result<(), AllocError>
    ensures { OnOk result (draft_of writer.new
        ≡ list_added (λ t. with_point) (tree value.entry) (draft_of writer.old)) }
{
    let Some(items) = value.as_list() else {
        return Ok(());
    };
    writer.write(b"[")?;
    let mut first = true;
    for _item in items {
        writer.comma(first)?;
        first = false;
        writer.point()?;
    }
    writer.write(b"]")
}

/// Writes the list of a ring for each value of a List.
pub fn rings(writer: &mut Writer<'_>, value: Value<'_>) -> Result<(), AllocError>
    ensures { OnOk result (draft_of writer.new
        ≡ list_added (λ t. with_ring) (tree value.entry) (draft_of writer.old)) }
{
    let Some(items) = value.as_list() else {
        return Ok(());
    };
    writer.write(b"[")?;
    let mut first = true;
    for _item in items {
        writer.comma(first)?;
        first = false;
        writer.ring()?;
    }
    writer.write(b"]")
}

/// Writes the list of the lists of rings of the values of a List.
pub fn parts(writer: &mut Writer<'_>, value: Value<'_>) -> Result<(), AllocError>
    ensures { OnOk result (draft_of writer.new
        ≡ list_added (list_added (λ t. with_ring)) (tree value.entry) (draft_of writer.old)) }
{
    let Some(items) = value.as_list() else {
        return Ok(());
    };
    writer.write(b"[")?;
    let mut first = true;
    for item in items {
        writer.comma(first)?;
        first = false;
        rings(writer, item)?;
    }
    writer.write(b"]")
}
