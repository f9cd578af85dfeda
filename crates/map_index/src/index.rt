//! The items of a map at work by where they stand: its feature points and the vertices of its
//! chains.
ghost use Rattle.std.specs.Prelude.{◌≡◌, ◌+◌, ◌<◌, ◌≤◌, ◌^◌, ℕ, IfOk, length};
ghost use Rattle.std.specs.List.Sorted.{IsStrictlyIncreasing};
ghost use Rattle.arc_map.specs.Chains.{chain_at};
ghost use Rattle.arc_map.specs.Work.{AreKeptIn, thinned_work};
ghost use Rattle.sweep_index.specs.Items.{found_in};
ghost use Rattle.sweep_index.specs.Walk.{items_left};
ghost use Rattle.map_index.specs.Listing.{items_of};
ghost use Rattle.map_index.specs.MapIndex.{IsAsRead, IsIndexAt};
ghost use Rattle.map_index.specs.Drops.{AreDropped};

use crate::listing::listed;
use arc_map::{NoMemory, WorkMap};
use grid_exact::Point;
use std::alloc::Global;
use std::marker::Model;
use sweep_index::{Index, Walk};

// The feature points and the vertices of a map at work, by where they stand. The items are
// numbered: first the feature points in order, then the vertices of the chains as read, chain after
// chain. A vertex that is thinned away is live no more. Contracts see the items, and for each chain
// the number of its first.
#[derive(Drop)]
pub struct MapIndex {
    index: Index,
    firsts: Vec<u32>,
}

impl Model for MapIndex {
    ghost use Rattle.map_index.specs.MapIndex.{Placed};

    ghost Value = { Placed };

    ghost view = { λ x. record { items = x.index; firsts = x.firsts.items } };
}

impl MapIndex {
    // The index of a map at work of which no chain is thinned yet. The only error is want of
    // memory.
    pub fn build(alloc: Global, work: &WorkMap) -> Result<MapIndex, NoMemory>
        requires { (k : ℕ) → k < length work.now.chains → IsAsRead work.now k }
        ensures index { IfOk result (IsIndexAt work.now) }
        ensures count { IfOk result (λ index. length index.items.numbered
            ≡ length (items_of work.now.read.points work.now.chains)) }
    {
        let (items, firsts) = listed(alloc, work)?;
        let index = Index::build(alloc, items)?;
        Ok(MapIndex { index, firsts })
    }

    // How many items there are, live or not.
    pub fn item_count(&self) -> usize
        ensures { result ≡ length self.now.items.numbered }
    {
        self.index.item_count()
    }

    // The live items in the closed box from its corner `low` to its corner `high`, each with its
    // number.
    pub fn in_box(&self, low: Point, high: Point) -> Walk<'_>
        ensures { items_left result ≡ found_in self.now.items low high }
    {
        self.index.in_box(low, high)
    }

    // Keeps step with the map, whose chain number `k` is about to be thinned to the places `kept`:
    // call it before `work.thin(k, kept)`. The chain is as read.
    pub fn thin(&mut self, work: &WorkMap, k: u32, kept: &[u32])
        requires index { IsIndexAt work.now self.old }
        requires chain { k < length work.now.chains }
        requires read { IsAsRead work.now k }
        requires kept { AreKeptIn (chain_at work.now.chains k) kept.now }
        ensures index { IsIndexAt (thinned_work work.now k kept.now) self.new }
        ensures count { length self.new.items.numbered ≡ length self.old.items.numbered }
    {
        let first = self.firsts[k as usize];
        let count = work.chain(k).len() as u32;
        drop_others(&mut self.index, first, count, kept);
    }
}

// Drops of the items from the number `first` on, `count` of them, those that are not at the places
// `kept`.
fn drop_others(index: &mut Index, first: u32, count: u32, kept: &[u32])
    requires rising { IsStrictlyIncreasing kept.now }
    requires within { first + count ≤ length index.old.live }
    requires few { length index.old.live < 2 ^ 32 }
    ensures numbered { index.new.numbered ≡ index.old.numbered }
    ensures live { AreDropped kept.now first count index.old.live index.new.live }
    ensures live_count { length index.new.live ≡ length index.old.live }
{
    let mut next = 0;
    for at in 0..count {
        if next < kept.len() && kept[next] == at {
            next += 1;
        } else {
            index.drop_item(first + at);
        }
    }
}
