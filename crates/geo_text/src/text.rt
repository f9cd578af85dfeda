//! The text of a topology that was built.

ghost use Rattle.std.specs.Prelude.{◌≡◌, IfOk, OnOk};
ghost use Rattle.json_scan.specs.Grammar.{Document, IsJson};
ghost use Rattle.json_scan.specs.Tree.{document_tree};
ghost use Rattle.json_scan.specs.Shown.{tree};
ghost use Rattle.geo_text.specs.BuiltText.{topology, built_text_of};
ghost use Rattle.geo_text.specs.Written.{draft_of};

use crate::entries::entries;
use crate::writer::Writer;
use arc_map::NoMemory;
use geo_reader::GeoMap;
use json_scan::{Scan, Value, value_of};
use std::alloc::{AllocError, Global};
use topo_build::Built;
use topo_writer::arcs_text;

/// Writes the topology of the value of a text, with the text of the arcs.
fn topology(
    writer: &mut Writer<'_>,
    input: &[u8],
    value: Value<'_>,
    arcs: &[u8],
) -> Result<(), AllocError>
    ensures { OnOk result (draft_of writer.new
        ≡ topology input.now (tree value.entry) arcs.now (draft_of writer.old)) }
{
    writer.write(
        br#"{"type":"Topology","objects":{"features":{"type":"GeometryCollection","geometries":"#,
    )?;
    entries(writer, input, value)?;
    writer.write(b"}},\"arcs\":")?;
    writer.write(arcs)?;
    writer.write(b"}")
}

/// The text of the topology (TopoJSON 1.0) that was built from a text of GeoJSON (RFC 7946), with
/// an entry for each feature or one for a geometry at the top. Each ring is written as its
/// references. The values of `id` and `properties` stand as they do in the text that was scanned;
/// all else is compact, and there is no line feed. The only error is want of memory.
///
/// The scan, what was read from it and what was built from that belong together.
pub fn built_text(
    alloc: Global,
    scan: &Scan<'_>,
    geo: &GeoMap,
    built: &Built,
) -> Result<Vec<u8>, NoMemory>
    ensures { (d : Document) → IsJson 64 scan.now.bytes scan.now.nodes d → IfOk result
        (λ text. text.items
        ≡ built_text_of scan.now.bytes (document_tree d) built.now.rings geo.now.points
        built.now.map) }
{
    let arcs = arcs_text(alloc, &built.map)?;
    let mut writer = Writer::new(alloc, &built.rings, geo.points());
    topology(&mut writer, scan.text(), value_of(scan), &arcs)?;
    Ok(writer.into_text())
}
