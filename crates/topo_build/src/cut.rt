//! The references of one ring to its arcs.
ghost use Rattle.std.specs.Prelude.{◌≡◌, ◌-◌, ◌+◌, ◌<◌, ◌≤◌, ◌^◌, ◌∷◌, ◌++◌, [], List, get_or};
ghost use Rattle.std.specs.Prelude.{IfOk, OnOk, length};
ghost use Rattle.grid_exact.specs.Geometry.{Place};
ghost use Rattle.topo_build.specs.Built.{IsRingBuilt};
ghost use Rattle.topo_build.specs.Cutting.{IsCut, IsStage};
ghost use Rattle.topo_build.specs.Found.{IsFound, IsRingFound};
ghost use Rattle.topo_build.specs.Passages.{IsMarked};
ghost use Rattle.topo_build.specs.Table.{IsTable, arcs_in, reference};

use crate::arcs::Arcs;
use crate::cyclic::closed_from;
use crate::junctions::Junctions;
use crate::step::Step;
use grid_exact::Point;
use std::alloc::{AllocError, Global};

// The references of a ring, which is a cyclic list. The arcs that it is the first to have are
// added.
pub(crate) fn ring_references(
    alloc: Global,
    arcs: &mut Arcs,
    junctions: &Junctions,
    ring: &[Point],
) -> Result<Vec<i32>, AllocError>
    requires table { IsTable arcs.old }
    requires some { 1 ≤ length ring.now }
    requires few { length (arcs_in arcs.old) + length ring.now ≤ 2 ^ 20 }
    ensures table { OnOk result (IsTable arcs.new) }
    ensures built { IfOk result (λ refs. IsRingBuilt IsFound IsRingFound (IsMarked junctions.now)
        ring.now (arcs_in arcs.old) refs.items (arcs_in arcs.new)) }
    ensures few { OnOk result
        (length (arcs_in arcs.new) ≤ length (arcs_in arcs.old) + length ring.now) }
{
    if ring.len() < 2 {
        let step = arcs.add(ring.to_vec(alloc)?)?;
        return one(alloc, step);
    }
    match junctions.first(ring) {
        Some(at) => {
            let walk = closed_from(alloc, ring, at)?;
            cut(alloc, arcs, junctions, walk.as_slice())
        }
        None => {
            let walk = closed_from(alloc, ring, 0)?;
            let step = arcs.take(walk)?;
            one(alloc, step)
        }
    }
}

// The list of one reference.
fn one(alloc: Global, step: Step) -> Result<Vec<i32>, AllocError>
    requires { step.arc < 2 ^ 20 }
    ensures { IfOk result (λ refs. refs.items ≡ reference step ∷ []) }
{
    let mut refs = Vec::new(alloc);
    push_reference(&mut refs, step)?;
    Ok(refs)
}

// Adds the reference of an arc in its direction.
fn push_reference(refs: &mut Vec<i32>, step: Step) -> Result<(), AllocError>
    requires { step.arc < 2 ^ 20 }
    ensures { OnOk result (refs.new.items ≡ refs.old.items ++ reference step ∷ []) }
{
    refs.push(step.number())?;
    Ok(())
}

// Cuts a walk at its junctions, of which its last position is one: the references of the pieces.
fn cut(
    alloc: Global,
    arcs: &mut Arcs,
    junctions: &Junctions,
    walk: &[Point],
) -> Result<Vec<i32>, AllocError>
    requires table { IsTable arcs.old }
    requires several { 2 ≤ length walk.now }
    requires few { length (arcs_in arcs.old) + length walk.now ≤ 2 ^ 20 + 1 }
    requires last { (d : Place) →
        IsMarked junctions.now (get_or walk.now (length walk.now - 1) d) }
    ensures table { OnOk result (IsTable arcs.new) }
    ensures pieces { IfOk result (λ refs. IsCut (IsMarked junctions.now) walk.now
        (arcs_in arcs.old) refs.items (arcs_in arcs.new)) }
    ensures few { OnOk result
        (length (arcs_in arcs.new) + 1 ≤ length (arcs_in arcs.old) + length walk.now) }
{
    let mut refs = Vec::new(alloc);
    let mut start = 0;
    for end in 1..walk.len() {
        start = cut_at(alloc, arcs, junctions, walk, start, end, &mut refs)?;
    }
    Ok(refs)
}

// Takes the piece from `start` to `end`, if there is a junction, and gives the place from which the
// next piece begins.
fn cut_at(
    alloc: Global,
    arcs: &mut Arcs,
    junctions: &Junctions,
    walk: &[Point],
    start: usize,
    end: usize,
    refs: &mut Vec<i32>,
) -> Result<usize, AllocError>
    requires table { IsTable arcs.old }
    requires few { length (arcs_in arcs.old) < 2 ^ 20 }
    requires order { start < end }
    requires within { end < length walk.now }
    ensures table { OnOk result (IsTable arcs.new) }
    ensures few { OnOk result
        (length (arcs_in arcs.new) ≤ length (arcs_in arcs.old) + 1) }
    ensures start { IfOk result (λ next. next ≤ end) }
    ensures stage { IfOk result (λ next. (before : List (List Place)) →
        IsStage (IsMarked junctions.now) walk.now start end before refs.old.items
        (arcs_in arcs.old) →
        IsStage (IsMarked junctions.now) walk.now next (end + 1) before refs.new.items
        (arcs_in arcs.new)) }
{
    if !junctions.has(walk[end]) {
        return Ok(start);
    }
    let piece = walk[start..end + 1].to_vec(alloc)?;
    let step = arcs.take(piece)?;
    push_reference(refs, step)?;
    Ok(end)
}
