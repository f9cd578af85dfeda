//! The border of polygons, ring after ring.
ghost use Rattle.std.specs.Prelude.{◌≡◌, ◌≢◌, ◌+◌, ◌<◌, ◌≤◌, ◌↔◌, [], ℕ, List, All, AllPairs};
ghost use Rattle.std.specs.Prelude.{Contains, IfOk, OnOk, get_or, length};
ghost use Rattle.grid_exact.specs.Geometry.{Place};
ghost use Rattle.arc_map.specs.Arcs.{is_inside_of};
ghost use Rattle.topo_reader.specs.Ends.{HasEvenEnds};
ghost use Rattle.dissolve.specs.Odd.{named_arcs, odd_arcs};
ghost use Rattle.dissolve.specs.Border.{IsBorder, IsRing, without_all};
ghost use Rattle.dissolve.specs.Closed.{IsClosed, arcs_used};
ghost use Rattle.dissolve.specs.Unused.{AreUnused, unused_in};
ghost use Rattle.dissolve.specs.Walk.{references, IsEven, IsStage};

use crate::odd::odd_marks;
use crate::rings::Rings;
use crate::step::{Step, first_position};
use crate::unused::Unused;
use arc_map::{ArcMap, NoMemory};
use std::alloc::{AllocError, Global};

/// The border of the chosen polygons, given by their numbers, as closed lines.
///
/// The odd arcs are those with an edge that the chosen polygons name an odd number of times in sum.
/// A ring begins with the least odd arc not used yet, forwards. While it is not back at its first
/// position, it goes on with the least odd arc not used yet that has an end at the position
/// reached: forwards if the arc begins there, else backwards. Rings are made until no odd arc is
/// left, so each is used once. From every point the edges of the rings are crossed as often, modulo
/// 2, as those of the chosen polygons in sum. The only error is want of memory.
pub fn border(alloc: Global, map: &ArcMap, chosen: &[u32]) -> Result<Rings, NoMemory>
    requires known { All (λ k. k < length map.now.polygons) chosen.now }
    requires even { All (λ k. HasEvenEnds map.now.arcs (get_or map.now.polygons k [])) chosen.now }
    ensures border { IfOk result (IsBorder map.now chosen.now) }
    // Each arc begins where the one before ends, and each ring ends where it begins.
    ensures closed { IfOk result (All (IsClosed map.now)) }
    // The arcs used are the odd arcs, each once.
    ensures used { IfOk result (λ rings. (k : ℕ) →
        Contains (arcs_used rings) k ↔ Contains (odd_arcs map.now chosen.now) k) }
    ensures once { IfOk result (λ rings. AllPairs (λ j k. j ≢ k) (arcs_used rings)) }
    // From p the rings are crossed as often, modulo 2, as the chosen polygons in sum.
    ensures crossed { IfOk result (λ rings. (p : Place) →
        is_inside_of p map.now.arcs (arcs_used rings)
        ≡ is_inside_of p map.now.arcs (named_arcs map.now chosen.now)) }
{
    let marks = odd_marks(alloc, map, chosen)?;
    let mut unused = Unused::build(alloc, map, marks)?;
    let mut rings = Vec::new(alloc);
    for arc in 0..map.arc_count() {
        add_ring(alloc, map, &mut unused, &mut rings, arc)?;
    }
    Ok(Rings::new(rings))
}

// Adds the ring that begins with the arc, if the arc is left. No arc before it is.
fn add_ring(
    alloc: Global,
    map: &ArcMap,
    unused: &mut Unused,
    rings: &mut Vec<Vec<Step>>,
    arc: u32,
) -> Result<(), AllocError>
    requires arc { arc < length map.now.arcs }
    requires unused { AreUnused map.now unused.old }
    requires even { IsEven map.now (unused_in unused.old) }
    ensures unused { OnOk result (AreUnused map.now unused.new) }
    ensures even { OnOk result (IsEven map.now (unused_in unused.new)) }
    ensures stage { OnOk result ((all : List ℕ) →
        IsStage map.now all rings.old.items (unused_in unused.old) arc →
        IsStage map.now all rings.new.items (unused_in unused.new) (arc + 1)) }
{
    if unused.has(arc) {
        let ring = ring_from(alloc, map, unused, arc)?;
        rings.push(ring)?;
    }
    Ok(())
}

// The ring that begins with the arc, which is left. Its arcs are taken away.
fn ring_from(
    alloc: Global,
    map: &ArcMap,
    unused: &mut Unused,
    arc: u32,
) -> Result<Vec<Step>, AllocError>
    requires arc { Contains (unused_in unused.old) arc }
    requires unused { AreUnused map.now unused.old }
    requires even { IsEven map.now (unused_in unused.old) }
    ensures unused { OnOk result (AreUnused map.now unused.new) }
    ensures even { OnOk result (IsEven map.now (unused_in unused.new)) }
    ensures left { IfOk result (λ ring.
        unused_in unused.new ≡ without_all (references ring.items) (unused_in unused.old)) }
    // It is a ring of the border if no arc before this one is left.
    ensures ring { IfOk result (λ ring.
        ((k : ℕ) → Contains (unused_in unused.old) k → arc ≤ k) →
        IsRing map.now (unused_in unused.old) (references ring.items)) }
{
    let first = Step {
        arc,
        forwards: true,
    };
    let start = first_position(map, arc);
    let mut ring = Vec::new(alloc);
    ring.push(first)?;
    unused.take(arc);
    let mut at = first.end(map);
    while at != start {
        let step = unused.next(map, at).unwrap();
        ring.push(step)?;
        at = step.end(map);
    }
    Ok(ring)
}
