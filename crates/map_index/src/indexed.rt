//! A map at work with what finds its items by place, and its chains by their ends.
ghost use Rattle.std.specs.Prelude.{◌≡◌, ◌≢◌, ◌<◌, ◌≤◌, All, AllPairs, IfOk, length};
ghost use Rattle.arc_map.specs.Arcs.{map_now};
ghost use Rattle.arc_map.specs.Chains.{chain_at, chain_places, AreChains};
ghost use Rattle.arc_map.specs.Ends.{AreChainsEndingAt};
ghost use Rattle.arc_map.specs.Work.{AreChainsIn, AreKeptIn, thinned_work, work_of};
ghost use Rattle.sweep_index.specs.Walk.{items_left};
ghost use Rattle.map_index.specs.MapIndex.{IsAsRead};
ghost use Rattle.map_index.specs.IndexedMap.{AreItemsIn, items_in};

use crate::index::MapIndex;
use arc_map::{ArcMap, ChainRef, EndTable, NoMemory, WorkMap};
use grid_exact::{Frame, Point};
use std::alloc::Global;
use std::marker::Model;
use sweep_index::Walk;

/// A map whose chains can be thinned, with its feature points and vertices by where they stand, and
/// its chains by their ends. Contracts see the map at work.
#[derive(Drop)]
pub struct IndexedMap {
    work: WorkMap,
    index: MapIndex,
    ends: EndTable,
}

impl Model for IndexedMap {
    ghost use Rattle.arc_map.specs.Work.{Work};
    ghost use Rattle.map_index.specs.IndexedMap.{IsInStep};

    ghost Value = { Work };

    ghost view = { λ m. m.work };

    ghost invariant = { λ m. IsInStep m.work m.index m.ends };
}

impl IndexedMap {
    /// The map with its chains, of which none is thinned yet. The only error is want of memory.
    pub fn build(alloc: Global, map: ArcMap, chains: Vec<ChainRef>) -> Result<IndexedMap, NoMemory>
        requires { AreChainsIn map chains.items }
        ensures { IfOk result (λ indexed. indexed ≡ work_of map chains.items) }
    {
        let work = WorkMap::new(alloc, map, chains)?;
        let index = MapIndex::build(alloc, &work)?;
        let ends = EndTable::build(alloc, &work)?;
        Ok(IndexedMap { work, index, ends })
    }

    /// The map at work.
    pub fn work(&self) -> &WorkMap
        ensures { result.now ≡ self.now }
    {
        &self.work
    }

    /// The positions of the vertices of chain number `k` as it is now, in grid units, from its
    /// first to its last.
    pub fn chain(&self, k: u32) -> &[Point]
        requires { k < length self.now.chains }
        ensures places { result.now ≡ chain_places (chain_at self.now.chains k) }
        ensures several { 2 ≤ length result.now }
        ensures short { length result.now ≤ 1024 }
        ensures distinct { AllPairs (λ p q. p ≢ q) result.now }
        // The chains are chains of a map, and each has an edge.
        ensures chains { AreChains self.now.chains }
        ensures edges { All (λ chain. 0 < length chain.rest) self.now.chains }
    {
        self.work.chain(k)
    }

    /// How many items there are: the feature points, and the vertices of the chains as read.
    pub fn item_count(&self) -> usize
        ensures { result ≡ items_in self.now }
    {
        self.index.item_count()
    }

    /// The items in the closed box from its corner `low` to its corner `high`, each with its
    /// number: the feature points there, and the vertices of the chains as they are now.
    pub fn in_box(&self, low: Point, high: Point) -> Walk<'_>
        ensures { AreItemsIn self.now low high (items_left result) }
    {
        self.index.in_box(low, high)
    }

    /// The frame in which chain number `k` runs strictly one way.
    pub fn frame(&self, k: u32) -> Frame
        requires { k < length self.now.chains }
        ensures { result ≡ (chain_at self.now.chains k).frame }
    {
        self.work.chain_ref(k).frame
    }

    /// The numbers of the chains with an end at `p`, rising, each once.
    pub fn chains_at(&self, p: Point) -> &[u32]
        ensures { AreChainsEndingAt self.now.chains p result.now }
    {
        self.ends.chains_at(p)
    }

    /// Leaves just the vertices of chain number `k`, which is as read, at the places `kept`, from
    /// 0. All else stays.
    pub fn thin(&mut self, k: u32, kept: &[u32])
        requires chain { k < length self.old.chains }
        requires read { IsAsRead self.old k }
        requires kept { AreKeptIn (chain_at self.old.chains k) kept.now }
        ensures { self.new ≡ thinned_work self.old k kept.now }
    {
        self.index.thin(&self.work, k, kept);
        self.work.thin(k, kept);
    }

    /// The map as it is now: its arcs are those that the chains make up, and the rest is as in the
    /// map read.
    pub fn finish(self) -> ArcMap
        ensures { result ≡ map_now self.read self.chains }
    {
        self.work.finish()
    }
}
