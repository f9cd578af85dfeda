//! The items of a map at work in the order of their numbers.
ghost use Rattle.std.specs.Prelude.{◌≡◌, ◌<◌, ◌≤◌, ◌^◌, ◌++◌, ℕ, All, IfOk, OnOk, length, map};
ghost use Rattle.std.specs.Prelude.{slice_index};
ghost use Rattle.sweep_index.specs.declared.index.Owner.TheVariants.{Town};
ghost use Rattle.map_index.specs.Listing.{item_of, items_of, items_before};

use arc_map::{NoMemory, WorkMap};
use grid_exact::Point;
use std::alloc::{AllocError, Global};
use sweep_index::{Item, Owner};

// The items of the map in order, and for each chain the number of its first.
pub fn listed(alloc: Global, work: &WorkMap) -> Result<(Vec<Item>, Vec<u32>), NoMemory>
    ensures items { IfOk result (λ r. r.0.items ≡ items_of work.now.read.points work.now.chains) }
    ensures few { IfOk result (λ r. length r.0.items < 2 ^ 32) }
    ensures firsts { IfOk result (λ r. (k : ℕ) → k < length work.now.chains
        → slice_index r.1.items k ≡ length (items_before work.now.read.points work.now.chains k)) }
    ensures firsts_count { IfOk result (λ r. length r.1.items ≡ length work.now.chains) }
    ensures refs_count { IfOk result (λ r. length r.1.items ≡ length work.now.refs) }
    ensures edges { IfOk result (λ r. All (λ chain. 0 < length chain.rest) work.now.chains) }
{
    let mut items = Vec::with_capacity(alloc, vertex_count(work) + work.point_count() as usize)?;
    push_points(&mut items, work)?;
    let mut firsts = Vec::with_capacity(alloc, work.chain_count() as usize)?;
    for k in 0..work.chain_count() {
        firsts.push_reserved(items.len() as u32);
        push_vertices(&mut items, Owner::Chain(k), work.chain(k))?;
    }
    Ok((items, firsts))
}

// How many vertices the chains have in all.
fn vertex_count(work: &WorkMap) -> usize
    ensures { result ≤ 2 ^ 30 }
{
    let mut count = 0;
    for k in 0..work.chain_count() {
        count += work.chain(k).len();
    }
    count
}

// Puts the feature points at the end of the items.
fn push_points(items: &mut Vec<Item>, work: &WorkMap) -> Result<(), AllocError>
    ensures { OnOk result (items.new.items ≡ items.old.items
        ++ map (item_of Town) work.now.read.points) }
{
    for k in 0..work.point_count() {
        items.push(Item {
            at: work.point(k),
            owner: Owner::Town,
        })?;
    }
    Ok(())
}

// Puts the places of the owner at the end of the items.
fn push_vertices(items: &mut Vec<Item>, owner: Owner, places: &[Point]) -> Result<(), AllocError>
    ensures { OnOk result (items.new.items ≡ items.old.items ++ map (item_of owner) places.now) }
{
    for place in places {
        items.push(Item { at: *place, owner })?;
    }
    Ok(())
}
