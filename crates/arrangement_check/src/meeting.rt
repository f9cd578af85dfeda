//! The meeting of a map, which is arranged where it has none.
ghost use Rattle.std.specs.Prelude.{◌≡◌, ◌↔◌, ◌<◌, ℕ, Err, IfOk, IfNone, IfSome, IsTrue, length};
ghost use Rattle.arc_map.specs.Arranged.{EdgesClash, HasNoClash, IsArranged, IsEarlier};
ghost use Rattle.arc_map.specs.Arranged.{IsLeastClash, IsLeastPoint, IsMapEdge, PointIsOn};
ghost use Rattle.arc_map.specs.declared.refs.EdgeRef.{EdgeRef};
ghost use Rattle.arrangement_check.specs.declared.meeting.CheckError.{CheckError};
ghost use Rattle.arrangement_check.specs.Least.{HasNoTown, IsLessPair, IsLessTown, IsNew};
ghost use Rattle.sweep_index.specs.EdgeIndex.{IsIndexOf};

use crate::arranged::Arranged;
use crate::clashes::{edges_clash, town_is_on};
use arc_map::{ArcMap, EdgeRef, NoMemory};
use std::alloc::Global;
use sweep_index::EdgeIndex;
use thiserror::Error;

/// Why a map is not arranged.
#[derive(Debug, Drop, Error)]
pub enum CheckError {
    /// These two edges clash, and no lesser pair does: by the first, then by the second.
    #[error("two edges clash")]
    Edges(EdgeRef, EdgeRef),
    /// No edges clash. This feature point lies on this edge, no lesser one on any, and this one on
    /// no lesser edge.
    #[error("a point lies on an arc")]
    PointOnArc(u32, EdgeRef),
    /// There is no memory.
    #[error("there is no memory")]
    NoMemory,
}

impl From<NoMemory> for CheckError {
    ghost use Rattle.std.specs.Prelude.{◌≡◌};
    ghost use Rattle.arrangement_check.specs.declared.meeting.CheckError.TheVariants.{NoMemory};

    ghost from_gives = { λ _ e. e ≡ NoMemory };

    fn from(_: NoMemory) -> CheckError {
        CheckError::NoMemory
    }
}

/// The map as an arranged one, or its meeting: the least clashing pair of edges, or where there is
/// none the least feature point that lies on an edge, with the least such edge. The map is given up
/// where it is not arranged.
pub fn check(alloc: Global, map: ArcMap) -> Result<Arranged, CheckError>
    ensures same { IfOk result (λ arranged. arranged ≡ map) }
    ensures arranged { IfOk result (λ arranged. IsArranged map) }
    ensures edges { (e f : EdgeRef) → result ≡ Err (CheckError.Edges e f) → IsLeastClash map e f }
    ensures point { (k : ℕ) (e : EdgeRef) → result ≡ Err (CheckError.PointOnArc k e)
        → IsLeastPoint map k e }
{
    let index = EdgeIndex::build(alloc, &map)?;
    check_over(map, &index)
}

/// What `check` answers, by an index of the map that is at hand.
pub fn check_over(map: ArcMap, index: &EdgeIndex) -> Result<Arranged, CheckError>
    requires index { IsIndexOf map index.now }
    ensures same { IfOk result (λ arranged. arranged ≡ map) }
    ensures arranged { IfOk result (λ arranged. IsArranged map) }
    ensures edges { (e f : EdgeRef) → result ≡ Err (CheckError.Edges e f) → IsLeastClash map e f }
    ensures point { (k : ℕ) (e : EdgeRef) → result ≡ Err (CheckError.PointOnArc k e)
        → IsLeastPoint map k e }
{
    if let Some((e, f)) = least_clash(&map, index) {
        return Err(CheckError::Edges(e, f));
    }
    check_towns(map, index)
}

/// What `check` answers of a map in which no two edges clash, by an index of the map that is at
/// hand.
pub fn check_towns(map: ArcMap, index: &EdgeIndex) -> Result<Arranged, CheckError>
    requires index { IsIndexOf map index.now }
    requires no_clash { HasNoClash map }
    ensures same { IfOk result (λ arranged. arranged ≡ map) }
    ensures arranged { IfOk result (λ arranged. IsArranged map) }
    ensures edges { (e f : EdgeRef) → result ≡ Err (CheckError.Edges e f) → IsLeastClash map e f }
    ensures point { (k : ℕ) (e : EdgeRef) → result ≡ Err (CheckError.PointOnArc k e)
        → IsLeastPoint map k e }
{
    if let Some((town, e)) = least_town(&map, index) {
        return Err(CheckError::PointOnArc(town, e));
    }
    Ok(Arranged::adopt(map))
}

// The least pair of edges that clash.
fn least_clash(map: &ArcMap, index: &EdgeIndex) -> Option<(EdgeRef, EdgeRef)>
    requires { IsIndexOf map.now index.now }
    ensures least { IfSome result (λ pair. IsLeastClash map.now pair.0 pair.1) }
    ensures none { IfNone result (HasNoClash map.now) }
{
    let mut least: Option<(EdgeRef, EdgeRef)> = None;
    let mut pairs = index.pairs();
    while let Some((e, f)) = pairs.next() {
        if clashes_below(map, e, f, least) {
            least = Some((e, f));
        }
    }
    least
}

// Whether the edges clash, and the pair is before the other one, or there is no other.
fn clashes_below(map: &ArcMap, e: EdgeRef, f: EdgeRef, least: Option<(EdgeRef, EdgeRef)>) -> bool
    requires first { IsMapEdge map.now e }
    requires second { IsMapEdge map.now f }
    ensures { IsTrue result ↔ (IsNew IsLessPair (e, f) least × EdgesClash map.now e f) }
{
    is_less((e, f), least) && edges_clash(map, e, f)
}

// Whether the pair is before the other one, or there is no other.
fn is_less(pair: (EdgeRef, EdgeRef), least: Option<(EdgeRef, EdgeRef)>) -> bool
    ensures { IsTrue result ↔ IsNew IsLessPair pair least }
{
    match least {
        None => true,
        Some((e, f)) => pair.0 < e || (pair.0 == e && pair.1 < f),
    }
}

// The least feature point that lies on an edge, with the least such edge.
fn least_town(map: &ArcMap, index: &EdgeIndex) -> Option<(u32, EdgeRef)>
    requires index { IsIndexOf map.now index.now }
    requires no_clash { HasNoClash map.now }
    ensures least { IfSome result (λ town. IsLeastPoint map.now town.0 town.1) }
    ensures none { IfNone result (HasNoTown map.now) }
{
    if map.point_count() == 0 {
        return None;
    }
    let mut least: Option<(u32, EdgeRef)> = None;
    let mut towns = index.towns();
    while let Some((town, e)) = towns.next() {
        if lies_below(map, town, e, least) {
            least = Some((town, e));
        }
    }
    least
}

// Whether the feature point lies on the edge, and is with it before the other one, or there is no
// other.
fn lies_below(map: &ArcMap, town: u32, e: EdgeRef, least: Option<(u32, EdgeRef)>) -> bool
    requires point { town < length map.now.points }
    requires edge { IsMapEdge map.now e }
    ensures { IsTrue result ↔ (IsNew IsLessTown (town, e) least × PointIsOn map.now town e) }
{
    is_less_town((town, e), least) && town_is_on(map, town, e)
}

// Whether the feature point with its edge is before the other one, or there is no other.
fn is_less_town(town: (u32, EdgeRef), least: Option<(u32, EdgeRef)>) -> bool
    ensures { IsTrue result ↔ IsNew IsLessTown town least }
{
    match least {
        None => true,
        Some((other, e)) => town.0 < other || (town.0 == other && town.1 < e),
    }
}
