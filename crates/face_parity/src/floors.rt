//! How far down the parts of the polygons of a map go.
ghost use Rattle.std.specs.Prelude.{◌≡◌, ◌<◌, ◌≤◌, ◌+◌, ◌++◌, ℕ, Bool, false, IsTrue, IfOk, OnOk};
ghost use Rattle.std.specs.Prelude.{List, [], All, Contains, length, map, slice_index};
ghost use Rattle.arc_map.specs.Map.{IsArc};
ghost use Rattle.face_parity.specs.Parities.{pass_oddly};
ghost use Rattle.face_parity.specs.Naming.{AreNamings, AreNamingsTo, AreUnder, named_by};
ghost use Rattle.face_parity.specs.Floors.{AreSpansTo, IsFloorOver, IsSpanOf, ends_along, span_at};

use crate::bounds::{Bounds, Ends};
use crate::namings::Naming;
use arc_map::ArcMap;
use grid_exact::Point;
use std::alloc::{AllocError, Global};

// A y below which an arc has no position, and the x at which it begins and ends.
#[derive(Clone, Copy)]
pub(crate) struct Span {
    pub low: u32,
    pub ends: Ends,
}

impl Span {
    // That of an arc with these positions.
    fn of(positions: &[Point]) -> Span
        requires { 0 < length positions.now }
        ensures { IsSpanOf positions.now result }
    {
        Span {
            low: Bounds::round(positions).south,
            ends: Ends::of(positions),
        }
    }
}

// The floors of the arcs of a map. Below the floor of an arc an even number of edges are crossed
// from any point, of each part of a polygon that names the arc.
#[derive(Drop)]
pub(crate) struct Floors {
    arcs: Vec<u32>,
}

impl Floors {
    // The floor of an arc.
    pub fn of_arc(&self, arc: u32) -> u32
        requires { arc < length self.now.arcs.items }
        ensures { result ≡ slice_index self.now.arcs.items arc }
    {
        self.arcs[arc as usize]
    }
}

// The namings of the arcs of the map by its polygons, in no order, and the floors of its arcs.
pub(crate) fn floored(alloc: Global, topology: &ArcMap) -> Result<(Vec<Naming>, Floors), AllocError>
    ensures namings { IfOk result (λ r. AreNamings topology.now r.0.items) }
    ensures floors { IfOk result (λ r. length r.1.arcs.items ≡ length topology.now.arcs) }
    ensures under { IfOk result (λ r. AreUnder r.1.arcs.items r.0.items) }
{
    let spans = spans_of(alloc, topology)?;
    let mut ends = Vec::new(alloc);
    let mut namings = Vec::new(alloc);
    let mut floors = vec![in alloc; u32::MAX; topology.arc_count() as usize]?;
    for polygon in 0..topology.polygon_count() {
        push_polygon(
            &mut namings,
            &mut floors,
            &mut ends,
            topology,
            &spans,
            polygon,
        )?;
    }
    Ok((namings, Floors { arcs: floors }))
}

// Adds the namings of the polygon, part by part, and lowers the floors of its arcs to those of the
// parts.
fn push_polygon(
    namings: &mut Vec<Naming>,
    floors: &mut Vec<u32>,
    ends: &mut Vec<u32>,
    topology: &ArcMap,
    spans: &[Span],
    polygon: u32,
) -> Result<(), AllocError>
    requires polygon { polygon < length topology.now.polygons }
    requires arcs { All IsArc topology.now.arcs }
    requires spans { AreSpansTo topology.now (length topology.now.arcs) spans.now }
    requires count { length floors.old.items ≡ length topology.now.arcs }
    requires so_far { AreNamingsTo topology.now polygon namings.old.items }
    requires under { AreUnder floors.old.items namings.old.items }
    ensures count { OnOk result (length floors.new.items ≡ length floors.old.items) }
    ensures namings { OnOk result (AreNamingsTo topology.now (polygon + 1) namings.new.items) }
    ensures under { OnOk result (AreUnder floors.new.items namings.new.items) }
{
    let mut rest = topology.polygon(polygon);
    while !rest.is_empty() {
        let count = part_length(spans, rest);
        let (part, others) = rest.split_at(count);
        let floor = floor_over(ends, spans, part)?;
        push_part(namings, part, polygon, floor)?;
        lower(floors, part, floor);
        rest = others;
    }
    Ok(())
}

// How many of the arcs with these numbers make up a part, from the first on: the fewest whose ends
// are paired, as far as their bits tell.
fn part_length(spans: &[Span], refs: &[u32]) -> usize
    requires arcs { All (λ arc. arc < length spans.now) refs.now }
    ensures within { result ≤ length refs.now }
    ensures some { 0 < length refs.now → 0 < result }
{
    let mut bits = 0;
    for at in 0..refs.len() {
        let ends = spans[refs[at] as usize].ends;
        bits ^= ends.first ^ ends.last;
        if bits == 0 {
            return at + 1;
        }
    }
    refs.len()
}

// Adds the namings of a part of the polygon.
fn push_part(
    namings: &mut Vec<Naming>,
    part: &[u32],
    polygon: u32,
    floor: u32,
) -> Result<(), AllocError>
    ensures { OnOk result (namings.new.items ≡ namings.old.items
        ++ map (named_by polygon floor) part.now) }
{
    for arc in part {
        namings.push(Naming {
            arc: *arc,
            polygon,
            floor,
        })?;
    }
    Ok(())
}

// The spans of the arcs of the map.
fn spans_of(alloc: Global, topology: &ArcMap) -> Result<Vec<Span>, AllocError>
    ensures { IfOk result (λ spans.
        AreSpansTo topology.now (length topology.now.arcs) spans.items) }
{
    let mut spans = Vec::new(alloc);
    for arc in 0..topology.arc_count() {
        spans.push(Span::of(topology.arc(arc)))?;
    }
    Ok(spans)
}

// A floor of a part with these arcs: the lowest of their positions, or 0 where their ends are not
// paired, since then the part is not closed.
fn floor_over(ends: &mut Vec<u32>, spans: &[Span], refs: &[u32]) -> Result<u32, AllocError>
    requires { All (λ arc. arc < length spans.now) refs.now }
    ensures { IfOk result (IsFloorOver spans.now refs.now) }
{
    ends.clear();
    let low = push_ends(ends, spans, refs)?;
    ends.sort_unstable();
    if are_paired(ends) { Ok(low) } else { Ok(0) }
}

// Adds the ends of the arcs with these numbers, and tells a y below which none of them has a
// position.
fn push_ends(ends: &mut Vec<u32>, spans: &[Span], refs: &[u32]) -> Result<u32, AllocError>
    requires arcs { All (λ arc. arc < length spans.now) refs.now }
    requires empty { ends.old.items ≡ [] }
    ensures ends { OnOk result (ends.new.items ≡ ends_along spans.now refs.now) }
    ensures low { IfOk result (λ low. All (λ arc. low ≤ (span_at spans.now arc).low) refs.now) }
{
    let mut low = u32::MAX;
    for arc in refs {
        let span = spans[*arc as usize];
        ends.push(span.ends.first)?;
        ends.push(span.ends.last)?;
        low = low.min(span.low);
    }
    Ok(low)
}

// Whether the first two numbers are equal, and the next two, and so on to the end: then an even
// number of them pass a test.
fn are_paired(numbers: &[u32]) -> bool
    ensures { IsTrue result → (test : ℕ → Bool) → pass_oddly test numbers.now ≡ false }
{
    let mut at = 0;
    while at + 1 < numbers.len() {
        if numbers[at] != numbers[at + 1] {
            return false;
        }
        at += 2;
    }
    at == numbers.len()
}

// Lowers the floors of these arcs to the floor, where they are above it.
fn lower(arcs: &mut Vec<u32>, refs: &[u32], floor: u32)
    requires { All (λ arc. arc < length arcs.old.items) refs.now }
    ensures count { length arcs.new.items ≡ length arcs.old.items }
    ensures lower { (arc : ℕ) → slice_index arcs.new.items arc ≤ slice_index arcs.old.items arc }
    ensures under { (arc : ℕ) → Contains refs.now arc → slice_index arcs.new.items arc ≤ floor }
{
    for arc in refs {
        let at = *arc as usize;
        arcs[at] = arcs[at].min(floor);
    }
}
