//! The check of a map and its held arcs: by pairs of edges that come near one another, or by a
//! sweep where those are many.
ghost use Rattle.std.specs.Prelude.{◌≡◌, ℕ, Err, IfOk, IsTrue};
ghost use Rattle.arc_map.specs.Arranged.{HasNoClash, IsArranged, IsHeldList, IsLeastClash};
ghost use Rattle.arc_map.specs.Arranged.{IsLeastPoint};
ghost use Rattle.arc_map.specs.declared.refs.EdgeRef.{EdgeRef};
ghost use Rattle.arrangement_check.specs.declared.meeting.CheckError.{CheckError};

use crate::check::without_clash;
use crate::samples::{edge_count, pair_count};
use crate::towns::least_town;
use crate::walk::is_clean;
use arc_map::{ArcMap, NoMemory};
use arrangement_check::{Arranged, CheckError, Partly, check, hold};
use std::alloc::{AllocError, Global};
use sweep_index::EdgeSlabs;

// Edges are crowded where so many pairs of them come near one another for each edge.
const CROWD: u64 = 64;

// How many numbers a sweep may move for each pair of edges that come near one another: then it
// takes about as long as to look at the pairs.
const MOVES: u64 = 16;

/// The map as an arranged one, or its meeting: the least clashing pair of edges, or where there is
/// none the least feature point that lies on an edge, with the least such edge. The map is given up
/// where it is not arranged. Where edges are crowded, as at a hub of many arcs, a sweep finds
/// whether any clash.
pub fn check_map(alloc: Global, map: ArcMap) -> Result<Arranged, CheckError>
    ensures same { IfOk result (λ arranged. arranged ≡ map) }
    ensures arranged { IfOk result (λ arranged. IsArranged map) }
    ensures edges { (e f : EdgeRef) → result ≡ Err (CheckError.Edges e f) → IsLeastClash map e f }
    ensures point { (k : ℕ) (e : EdgeRef) → result ≡ Err (CheckError.PointOnArc k e)
        → IsLeastPoint map k e }
{
    if !is_swept_clean(alloc, &map)? {
        return check(alloc, map);
    }
    without_clash(alloc, map)
}

/// The map with its held arcs: those of which an edge clashes with some edge, or on which a feature
/// point lies. The only error is want of memory. Where edges are crowded, as at a hub of many arcs,
/// a sweep finds whether any clash.
pub fn hold_map(alloc: Global, map: ArcMap) -> Result<Partly, NoMemory>
    ensures same { IfOk result (λ partly. partly.map ≡ map) }
    ensures held { IfOk result (λ partly. IsHeldList map partly.held) }
{
    if is_swept_arranged(alloc, &map)? {
        return Ok(Partly::whole(alloc, Arranged::adopt(map)));
    }
    hold(alloc, map)
}

// Whether the edges are crowded, and a sweep finds that no two clash, and no feature point lies on
// one.
fn is_swept_arranged(alloc: Global, map: &ArcMap) -> Result<bool, NoMemory>
    ensures { IfOk result (λ arranged. IsTrue arranged → IsArranged map.now) }
{
    if !is_swept_clean(alloc, map)? {
        return Ok(false);
    }
    let slabs = EdgeSlabs::build(alloc, map)?;
    match least_town(map, &slabs) {
        Some(_) => Ok(false),
        None => Ok(true),
    }
}

// Whether the edges are crowded, and a sweep finds that no two clash.
fn is_swept_clean(alloc: Global, map: &ArcMap) -> Result<bool, NoMemory>
    ensures { IfOk result (λ clean. IsTrue clean → HasNoClash map.now) }
{
    let moves = moves_for(alloc, map)?;
    if moves == 0 {
        return Ok(false);
    }
    is_clean(alloc, map, moves)
}

// How many numbers a sweep may move: none where the edges are not crowded, or to look at each
// feature point beside each edge would take longer than to look at the pairs of edges.
fn moves_for(alloc: Global, map: &ArcMap) -> Result<u64, AllocError> {
    let edges = edge_count(map);
    let pairs = pair_count(alloc, map, edges)?;
    let edges = edges as u64;
    let towns = u64::from(map.point_count());
    if pairs / CROWD <= edges || towns.saturating_mul(edges) > pairs {
        return Ok(0);
    }
    Ok(pairs.saturating_mul(MOVES))
}
