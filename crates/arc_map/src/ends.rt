//! The chains that end at a place.
ghost use Rattle.std.specs.Prelude.{◌≡◌, ◌<◌, ◌∷◌, ◌++◌, [], if◌then◌else◌, OnOk, IfOk, length};
ghost use Rattle.std.specs.Prelude.{position};
ghost use Rattle.grid_exact.specs.Geometry.{Place};
ghost use Rattle.arc_map.specs.Ends.{EndLists, IsEndTable, is_same, listed};

use crate::work::WorkMap;
use grid_exact::{NoMemory, Point};
use indexmap::IndexSet;
use smallvec::SmallVec;
use std::alloc::{AllocError, Global};
use std::marker::Model;

/// The chains of a map by their ends.
#[derive(Drop)]
pub struct EndTable {
    places: IndexSet<Point>,
    lists: Vec<SmallVec<u32, 2>>,
}

impl Model for EndTable {
    ghost use Rattle.std.specs.Prelude.{◌≡◌, map, length};
    ghost use Rattle.arc_map.specs.Ends.{EndLists};

    ghost Value = { EndLists };

    ghost view = { λ t. record {
      places = t.places.keys;
      lists = map (λ list. list.items) t.lists.items;
    } };

    ghost invariant = { λ t. length t.lists.items ≡ length t.places.keys };
}

impl EndTable {
    /// The table of all chain ends. The only error is want of memory.
    pub fn build(alloc: Global, work: &WorkMap) -> Result<EndTable, NoMemory>
        ensures { IfOk result (IsEndTable work.now.chains) }
    {
        let count = work.chain_count() as usize;
        let mut table = EndTable {
            places: IndexSet::with_capacity(alloc, count)?,
            lists: Vec::with_capacity(alloc, count)?,
        };
        for k in 0..work.chain_count() {
            let chain = work.chain(k);
            table.add(alloc, chain[0], k)?;
            table.add(alloc, chain[chain.len() - 1], k)?;
        }
        Ok(table)
    }

    /// The chains with an end at `p`, rising, each once.
    pub fn chains_at(&self, p: Point) -> &[u32]
        ensures { result.now ≡ listed self.now.places self.now.lists p }
    {
        match self.places.get_index_of(&p) {
            Some(at) => self.lists[at].as_slice(),
            None => &[],
        }
    }

    // Puts the chain at the end of the list of the place.
    fn add(&mut self, alloc: Global, place: Point, chain: u32) -> Result<(), AllocError>
        ensures { OnOk result ((p : Place) → listed self.new.places self.new.lists p
            ≡ (if is_same p place
            then listed self.old.places self.old.lists p ++ chain ∷ []
            else listed self.old.places self.old.lists p)) }
    {
        let at = self.index_of(alloc, place)?;
        self.lists[at].push(chain)?;
        Ok(())
    }

    // The index of the place, which is new where it was not there.
    fn index_of(&mut self, alloc: Global, place: Point) -> Result<usize, AllocError>
        ensures index { IfOk result (λ at. position (is_same place) self.new.places ≡ Some at) }
        ensures within { IfOk result (λ at. at < length self.new.lists) }
        ensures same_length { length self.new.lists ≡ length self.new.places }
        ensures lists { OnOk result ((p : Place)
            → listed self.new.places self.new.lists p ≡ listed self.old.places self.old.lists p) }
    {
        self.lists.reserve(1)?;
        let (at, is_new) = self.places.insert_full(place)?;
        if is_new {
            self.lists.push_reserved(SmallVec::new(alloc));
        }
        Ok(at)
    }
}
