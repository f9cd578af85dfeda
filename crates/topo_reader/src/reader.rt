//! A topology: the map that it is, and where the value of `arcs` stands.

ghost use Rattle.std.specs.Prelude.{◌≡◌, ◌≤◌, ◌^◌, IfOk, IfErr, All, vec_len};
ghost use Rattle.json_scan.specs.Grammar.{Document, IsJson};
ghost use Rattle.json_scan.specs.Tree.{document_tree};
ghost use Rattle.json_scan.specs.Shown.{tree};
ghost use Rattle.json_scan.specs.Members.{members, holder};
ghost use Rattle.topo_reader.specs.Sequence.{Faults};
ghost use Rattle.topo_reader.specs.Gives.{Gives};
ghost use Rattle.topo_reader.specs.Arcs.{places_of, AreArcs};
ghost use Rattle.topo_reader.specs.Ends.{HasEvenEnds};
ghost use Rattle.topo_reader.specs.Reads.{header_of, map_of, topology_from, topology_of};
ghost use Rattle.topo_reader.specs.TopologyIs.{topology_read, LiesIn};

use crate::arcs::arcs_value;
use crate::fault::{ReadFault, ShapeKind, wrong};
use crate::geometries::SeenSoFar;
use crate::member::{required, topology_type};
use crate::objects::objects;
use crate::transform::is_coded;
use arc_map::ArcMap;
use grid_exact::Point;
use json_scan::{Object, Scan, Value, value_of};
use std::alloc::Global;

/// A part of a text: the place of its first byte and the place behind its last, in bytes from 0.
#[derive(Clone, Copy, Debug, PartialEq, Eq)]
pub struct Span {
    pub start: u32,
    pub end: u32,
}

/// The map of a topology, and where the value of `arcs` stands in its text.
#[derive(Drop)]
pub struct Topology {
    pub map: ArcMap,
    pub arcs_at: Span,
}

/// Reads `type` and `transform`: whether the map is coded.
fn header(object: Object<'_>) -> Result<bool, ReadFault>
    ensures { result ≡ header_of (holder object.entry) (members object.entry) }
{
    let value = required(object, "type")?;
    topology_type(value)?;
    is_coded(object)
}

/// Reads `objects`, into the map of these arcs.
fn read_map(
    alloc: Global,
    object: Object<'_>,
    arcs: Vec<Vec<Point>>,
    coded: bool,
) -> Result<ArcMap, ReadFault>
    requires few_arcs { vec_len arcs ≤ 2 ^ 20 }
    requires are_arcs { AreArcs (places_of arcs.items) }
    ensures even_ends { IfOk result (λ map. All (HasEvenEnds map.arcs) map.polygons) }
    ensures gives { Gives (λ map. map) result
        (map_of coded (places_of arcs.items) (holder object.entry) (members object.entry)) }
{
    let value = required(object, "objects")?;
    let mut seen = SeenSoFar::new(alloc);
    objects(alloc, value, &arcs, &mut seen)?;
    Ok(ArcMap::new(arcs, seen.points, seen.polygons, coded))
}

/// Reads a topology from its Object.
fn read_object(alloc: Global, object: Object<'_>) -> Result<Topology, ReadFault>
    ensures gives { Gives topology_read result
        (topology_from (holder object.entry) (members object.entry)) }
    ensures even_ends { IfOk result
        (λ topology. All (HasEvenEnds topology.map.arcs) topology.map.polygons) }
{
    let coded = header(object)?;
    let value = required(object, "arcs")?;
    let arcs = arcs_value(alloc, value, coded)?;
    let map = read_map(alloc, object, arcs, coded)?;
    let arcs_at = Span {
        start: value.start(),
        end: value.end(),
    };
    Ok(Topology { map, arcs_at })
}

/// Reads the topology that a value is.
fn read_value(alloc: Global, value: Value<'_>) -> Result<Topology, ReadFault>
    ensures gives { Gives topology_read result (topology_of (tree value.entry)) }
    ensures even_ends { IfOk result
        (λ topology. All (HasEvenEnds topology.map.arcs) topology.map.polygons) }
{
    match value.as_object() {
        Some(object) => read_object(alloc, object),
        None => Err(wrong(ShapeKind::NotObject, value)),
    }
}

/// Reads the topology that a text is, or gives the first fault in the order of the walk, with its
/// place in bytes from 0: of the members `type`, `transform`, `arcs` and `objects` each is looked
/// for when the value of the one before was walked whole. `NoMemory` is want of memory.
pub fn read(alloc: Global, scan: &Scan<'_>) -> Result<Topology, ReadFault>
    ensures topology { (d : Document) → IsJson 64 scan.now.bytes scan.now.nodes d
        → IfOk result (λ topology. topology_of (document_tree d) ≡ Ok (topology_read topology)) }
    ensures fault { (d : Document) → IsJson 64 scan.now.bytes scan.now.nodes d
        → IfErr result (Faults (topology_of (document_tree d))) }
    ensures span { IfOk result (λ topology. LiesIn scan.now.bytes topology.arcs_at) }
    ensures even_ends { IfOk result
        (λ topology. All (HasEvenEnds topology.map.arcs) topology.map.polygons) }
{
    read_value(alloc, value_of(scan))
}
