//! The places of the positions that levels keep.
ghost use Rattle.std.specs.Prelude.{◌≡◌, ◌+◌, ◌<◌, ◌++◌, ℕ, [], IfOk, OnOk, All, drop};
ghost use Rattle.std.specs.Prelude.{length, map, slice_index};
ghost use Rattle.std.specs.List.{range_with_len};
ghost use Rattle.arc_map.specs.Map.{IsMap};
ghost use Rattle.arc_map.specs.Arranged.{arc_at};
ghost use Rattle.pyramid.specs.Levels.{kept_of};
ghost use Rattle.pyramid.specs.Places.{list_of, IsWithin};

use arc_map::{ArcMap, ChainRecord, RunRecords};
use std::alloc::{AllocError, Global};

// For each arc of the map the places of all its positions.
pub(crate) fn all_places(alloc: Global, map: &ArcMap) -> Result<Vec<Vec<u32>>, AllocError>
    ensures is_map { IsMap map.now }
    ensures count { IfOk result (λ places. length places.items ≡ length map.now.arcs) }
    ensures places { IfOk result (λ places. (arc : ℕ) → arc < length map.now.arcs →
        list_of places.items arc ≡ range_with_len 0 (length (arc_at map.now arc))) }
{
    let mut places = Vec::with_capacity(alloc, map.arc_count() as usize)?;
    for arc in 0..map.arc_count() {
        places.push_reserved(places_below(alloc, map.arc(arc).len() as u32)?);
    }
    Ok(places)
}

// The places before this one.
fn places_below(alloc: Global, end: u32) -> Result<Vec<u32>, AllocError>
    ensures { IfOk result (λ places. places.items ≡ range_with_len 0 end) }
{
    (0..end).collect(alloc)
}

// For each list of places those that the records keep of it.
pub(crate) fn places_left(
    alloc: Global,
    places: &[Vec<u32>],
    records: &RunRecords,
) -> Result<Vec<Vec<u32>>, AllocError>
    requires some { (arc : ℕ) → arc < length places.now → 0 < length (list_of places.now arc) }
    requires within { All (IsWithin places.now) records.now.entries }
    ensures count { IfOk result (λ left. length left.items ≡ length places.now) }
    ensures left { IfOk result (λ left. (arc : ℕ) → arc < length places.now →
        list_of left.items arc
        ≡ map (slice_index (list_of places.now arc)) (kept_of records.now.entries arc)) }
{
    let mut left = first_places(alloc, places)?;
    for k in 0..records.count() {
        let chain = records.get(k);
        let arc = chain.arc as usize;
        add_kept(
            &mut left[arc],
            places[arc].as_slice(),
            chain.from,
            chain.kept,
        )?;
    }
    Ok(left)
}

// Of each list of places the first.
fn first_places(alloc: Global, places: &[Vec<u32>]) -> Result<Vec<Vec<u32>>, AllocError>
    requires { (arc : ℕ) → arc < length places.now → 0 < length (list_of places.now arc) }
    ensures count { IfOk result (λ left. length left.items ≡ length places.now) }
    ensures left { IfOk result (λ left. (arc : ℕ) → arc < length places.now →
        list_of left.items arc ≡ map (slice_index (list_of places.now arc)) (kept_of [] arc)) }
{
    let mut left = Vec::with_capacity(alloc, places.len())?;
    for list in places {
        left.push_reserved(vec![in alloc; list[0]]?);
    }
    Ok(left)
}

// Adds the places that a chain keeps after its first, which is the last of the chain before it. The
// chain begins at place number `from` of these.
fn add_kept(left: &mut Vec<u32>, places: &[u32], from: u32, kept: &[u32]) -> Result<(), AllocError>
    requires some { 0 < length kept.now }
    requires within { All (λ i. «from» + i < length places.now) (drop 1 kept.now) }
    ensures { OnOk result (left.new.items ≡ left.old.items
        ++ map (λ i. slice_index places.now («from» + i)) (drop 1 kept.now)) }
{
    for i in &kept[1..] {
        left.push(places[from as usize + *i as usize])?;
    }
    Ok(())
}
