//! A run, chain by chain.
ghost use Rattle.std.specs.Prelude.{◌≡◌, ◌+◌, ◌<◌, ◌≤◌, ◌^◌, All, IfOk, length, sum_by};
ghost use Rattle.grid_exact.specs.Weights.{StaysOnGrid};
ghost use Rattle.chain_replace.specs.Run.{IsOutcome};
ghost use Rattle.chain_replace.specs.Laws.{KeepsFaces};
ghost use Rattle.chain_replace.specs.Rooms.{vertices_in};

use crate::finder::PathFinder;
use crate::terms::Terms;
use arc_map::{NoMemory, RunRecords, WorkMap};
use arrangement_check::Partly;
use grid_exact::{Bound, Weights};
use map_index::IndexedMap;
use monotone_split::split;
use std::alloc::Global;
use std::marker::Model;

/// A run under way: the chains of a map are replaced one after the other, each by its best path in
/// the map as found. Contracts see the map at work, what the run was given, the number of the next
/// chain, and the records so far.
#[derive(Drop)]
pub struct RunState {
    map: IndexedMap,
    terms: Terms,
    finder: PathFinder,
    records: RunRecords,
    next: u32,
}

impl Model for RunState {
    ghost use Rattle.chain_replace.specs.Run.{Progress};

    ghost Value = { Progress };

    ghost use Rattle.chain_replace.specs.UnderWay.{progress_of, IsUnderWay};

    ghost view = { progress_of };

    ghost invariant = { IsUnderWay };
}

/// What a run comes to: the map with its chains replaced, beside the same held arcs, and the
/// records of the chains that were replaced, in order.
#[derive(Drop)]
pub struct Outcome {
    /// the map with the held arcs
    pub map: Partly,
    /// one record for each chain whose arc is not held
    pub records: RunRecords,
}

impl RunState {
    ghost use Rattle.chain_replace.specs.Run.{IsStart, IsStep, map_so_far};

    /// The run over the map with this bound, in grid units, and these weights, before its first
    /// chain. It takes all memory of the run; the only error is want of it.
    pub fn new(
        alloc: Global,
        partly: Partly,
        bound: Bound,
        weights: Weights,
    ) -> Result<RunState, NoMemory>
        requires { All (All (StaysOnGrid weights)) partly.map.arcs }
        ensures { IfOk result (IsStart partly.map
            (record { held = partly.held; bound = bound; weights = weights })) }
    {
        let (map, held) = partly.into_parts();
        let chains = split(alloc, &map)?;
        let map = IndexedMap::build(alloc, map, chains)?;
        let finder = PathFinder::with_room(alloc, map.item_count())?;
        let work = map.work();
        let vertices = vertex_count(work);
        let records = RunRecords::with_room(
            alloc,
            work.chain_count() as usize,
            vertices,
            vertices,
        )?;
        Ok(RunState {
            map,
            terms: Terms {
                held,
                bound,
                weights,
            },
            finder,
            records,
            next: 0,
        })
    }

    /// What the run was given besides the map.
    pub fn terms(&self) -> &Terms
        ensures { result.now ≡ self.now.terms }
    {
        &self.terms
    }

    /// The number of the next chain, from 0.
    pub fn next(&self) -> u32
        ensures { result ≡ self.now.next }
    {
        self.next
    }

    /// How many chains the map has.
    pub fn chain_count(&self) -> u32
        ensures { result ≡ length self.now.work.chains }
    {
        self.map.work().chain_count()
    }

    /// Replaces the next chain by its best path, and adds its record; a chain of a held arc stays,
    /// and has no record. It takes no memory. The map is arranged beside the held arcs as before,
    /// and its faces stay.
    pub fn replace_chain(&mut self)
        requires { self.old.next < length self.old.work.chains }
        ensures step { IsStep self.old self.new }
        ensures faces { KeepsFaces self.old.terms.held (map_so_far self.old) (map_so_far self.new) }
    {
        let k = self.next;
        let place = self.map.work().chain_ref(k);
        if self.terms.held.has(place.arc) {
            self.next = k + 1;
            return;
        }
        self.finder.find(&self.map, k, &self.terms);
        let kept = self.finder.path();
        self.map.thin(k, kept);
        self.records
            .push(place.arc, place.from, kept, self.finder.layers());
        self.next = k + 1;
    }

    /// The map as it is now, and the records. All chains are done.
    pub fn finish(self) -> Outcome
        requires { self.next ≡ length self.work.chains }
        ensures outcome { IsOutcome self.work.read self.terms result.map.map
            result.records.entries }
        ensures held { result.map.held ≡ self.terms.held }
        ensures faces { KeepsFaces self.terms.held self.work.read result.map.map }
    {
        let RunState {
            map,
            terms,
            records,
            finder: _,
            next: _,
        } = self;
        Outcome {
            map: Partly::adopt(map.finish(), terms.held),
            records,
        }
    }
}

// How many vertices the chains have in sum.
fn vertex_count(work: &WorkMap) -> usize
    ensures { result ≡ vertices_in work.now.chains }
{
    let mut count = 0;
    for k in 0..work.chain_count() {
        count += work.chain(k).len();
    }
    count
}

/// The run over all chains of the map, with this bound, in grid units, and these weights: the map
/// with each chain of an arc that is not held replaced by its best path in the map as found, and
/// the records. The held arcs stay. All memory is taken before the first chain is replaced; the
/// only error is want of it.
pub fn run_chains(
    alloc: Global,
    partly: Partly,
    bound: Bound,
    weights: Weights,
) -> Result<Outcome, NoMemory>
    requires { All (All (StaysOnGrid weights)) partly.map.arcs }
    ensures outcome { IfOk result (λ o. IsOutcome partly.map
        (record { held = partly.held; bound = bound; weights = weights }) o.map.map
        o.records.entries) }
    ensures held { IfOk result (λ o. o.map.held ≡ partly.held) }
    ensures faces { IfOk result (λ o. KeepsFaces partly.held partly.map o.map.map) }
{
    let mut run = RunState::new(alloc, partly, bound, weights)?;
    while run.next() < run.chain_count() {
        run.replace_chain();
    }
    Ok(run.finish())
}
