//! The check of a map by a sweep.
ghost use Rattle.std.specs.Prelude.{◌≡◌, ◌↔◌, ℕ, Ok, Err, IfOk};
ghost use Rattle.arc_map.specs.Arranged.{HasNoClash, IsArranged, IsLeastClash, IsLeastPoint};
ghost use Rattle.arc_map.specs.declared.refs.EdgeRef.{EdgeRef};
ghost use Rattle.arrangement_check.specs.declared.meeting.CheckError.{CheckError};
ghost use Rattle.sweep_index.specs.EdgeIndex.{IsIndexOf};
ghost use Rattle.plane_sweep.specs.Answers.{IsAnswer, IsClash};
ghost use Rattle.plane_sweep.specs.declared.check.Swept.{Swept};

use crate::clashes::first_clash;
use crate::towns::least_town;
use crate::walk::is_clean;
use arc_map::{ArcMap, EdgeRef, NoMemory};
use arrangement_check::{Arranged, CheckError, check};
use std::alloc::Global;
use sweep_index::{EdgeIndex, EdgeSlabs};

/// What a sweep over the edges of a map finds.
#[derive(Clone, Copy, Debug, PartialEq, Eq)]
pub enum Swept {
    /// No two edges clash.
    Clean,
    /// These two edges clash, the first of which is before the second.
    Meets(EdgeRef, EdgeRef),
}

/// Whether edges of the map clash: `Clean` exactly where no two do. The only error is want of
/// memory.
pub fn sweep(alloc: Global, map: &ArcMap) -> Result<Swept, NoMemory>
    ensures clean { IfOk result (λ swept. (swept ≡ Swept.Clean) ↔ HasNoClash map.now) }
    ensures meets { (e f : EdgeRef) → result ≡ Ok (Swept.Meets e f) → IsClash map.now e f }
{
    if is_clean(alloc, map, u64::MAX)? {
        return Ok(Swept::Clean);
    }
    let index = EdgeIndex::build(alloc, map)?;
    Ok(found(map, &index))
}

// What the pairs of edges that come near one another tell.
fn found(map: &ArcMap, index: &EdgeIndex) -> Swept
    requires { IsIndexOf map.now index.now }
    ensures { IsAnswer map.now result }
{
    match first_clash(map, index) {
        Some((e, f)) => Swept::Meets(e, f),
        None => Swept::Clean,
    }
}

/// The map as an arranged one, or its meeting: the least clashing pair of edges, or where there is
/// none the least feature point that lies on an edge, with the least such edge. The map is given up
/// where it is not arranged.
pub fn check_by_sweep(alloc: Global, map: ArcMap) -> Result<Arranged, CheckError>
    ensures same { IfOk result (λ arranged. arranged ≡ map) }
    ensures arranged { IfOk result (λ arranged. IsArranged map) }
    ensures edges { (e f : EdgeRef) → result ≡ Err (CheckError.Edges e f) → IsLeastClash map e f }
    ensures point { (k : ℕ) (e : EdgeRef) → result ≡ Err (CheckError.PointOnArc k e)
        → IsLeastPoint map k e }
{
    if !is_clean(alloc, &map, u64::MAX)? {
        return check(alloc, map);
    }
    without_clash(alloc, map)
}

// What the feature points tell of a map in which no two edges clash.
pub fn without_clash(alloc: Global, map: ArcMap) -> Result<Arranged, CheckError>
    requires { HasNoClash map }
    ensures same { IfOk result (λ arranged. arranged ≡ map) }
    ensures arranged { IfOk result (λ arranged. IsArranged map) }
    ensures edges { (e f : EdgeRef) → result ≡ Err (CheckError.Edges e f) → IsLeastClash map e f }
    ensures point { (k : ℕ) (e : EdgeRef) → result ≡ Err (CheckError.PointOnArc k e)
        → IsLeastPoint map k e }
{
    let slabs = EdgeSlabs::build(alloc, &map)?;
    if let Some((town, e)) = least_town(&map, &slabs) {
        return Err(CheckError::PointOnArc(town, e));
    }
    Ok(Arranged::adopt(map))
}
