//! A map at work: its chains as they are now, each of which can be thinned in place.
ghost use Rattle.std.specs.Prelude.{◌≡◌, ◌≢◌, ◌+◌, ◌<◌, ◌≤◌, ◌^◌, ◌++◌, All, AllPairs, IfOk};
ghost use Rattle.std.specs.Prelude.{length, map, slice_get, slice_index_or, slice_range, take};
ghost use Rattle.std.specs.List.Sorted.{IsStrictlyIncreasing};
ghost use Rattle.arc_map.specs.Arcs.{map_now};
ghost use Rattle.arc_map.specs.Chains.{chain_at, chain_places, AreChains};
ghost use Rattle.arc_map.specs.Arranged.{arc_at, nowhere};
ghost use Rattle.arc_map.specs.Ends.{EndLists, IsEndTable};
ghost use Rattle.arc_map.specs.Live.{IsPartOf};
ghost use Rattle.arc_map.specs.Rejoin.{run_from, tails, rejoined};
ghost use Rattle.arc_map.specs.Work.{Work, work_of, LiesInArc, AreChainsIn, AreKeptIn};
ghost use Rattle.arc_map.specs.Work.{thinned_work};

use crate::map::ArcMap;
use crate::refs::ChainRef;
use grid_exact::{NoMemory, Point};
use std::alloc::Global;
use std::marker::Model;

// A chain as it is now: its place in the map read, and where in the list of the vertices of all
// chains its own begin and end.
#[derive(Clone, Copy)]
struct Span {
    place: ChainRef,
    start: usize,
    end: usize,
}

/// A map whose chains can be thinned. Contracts see the map read, the places of its chains there,
/// and the chains as they are now: lists of vertices that know their arc and their number in it as
/// read.
#[derive(Drop)]
pub struct WorkMap {
    base: ArcMap,
    vertices: Vec<Point>,
    chains: Vec<Span>,
}

impl Model for WorkMap {
    ghost use Rattle.arc_map.specs.Work.{Work};

    ghost Value = { Work };

    ghost use Rattle.arc_map.specs.Live.{work_in, AreLive};

    ghost view = { work_in };

    ghost invariant = { AreLive };
}

impl WorkMap {
    /// The map with its chains, of which none is thinned yet. The only error is want of memory.
    pub fn new(alloc: Global, map: ArcMap, chains: Vec<ChainRef>) -> Result<WorkMap, NoMemory>
        requires { AreChainsIn map chains.items }
        ensures { IfOk result (λ work. work ≡ work_of map chains.items) }
    {
        let mut vertices = Vec::with_capacity(alloc, vertex_count(&chains))?;
        let mut live = Vec::with_capacity(alloc, chains.len())?;
        for place in &chains {
            let start = vertices.len();
            vertices.extend_from_slice(as_read(&map, *place))?;
            live.push_reserved(Span {
                place: *place,
                start,
                end: vertices.len(),
            });
        }
        Ok(WorkMap {
            base: map,
            vertices,
            chains: live,
        })
    }

    /// How many chains there are. Whatever was thinned, they are chains of a map: each runs
    /// strictly one way within one arc, and they have no vertex in common but their ends.
    pub fn chain_count(&self) -> u32
        ensures value { result ≡ length self.now.chains }
        ensures refs { result ≡ length self.now.refs }
        ensures few { result ≤ 2 ^ 20 }
        ensures chains { AreChains self.now.chains }
    {
        self.chains.len() as u32
    }

    /// The positions of the vertices of chain number `k` as it is now, in grid units, from its
    /// first to its last.
    pub fn chain(&self, k: u32) -> &[Point]
        requires { k < length self.now.chains }
        ensures places { result.now ≡ chain_places (chain_at self.now.chains k) }
        ensures several { 2 ≤ length result.now }
        ensures short { length result.now ≤ 1024 }
        ensures distinct { AllPairs (λ p q. p ≢ q) result.now }
        ensures chains { AreChains self.now.chains }
    {
        let Span { start, end, .. } = self.chains[k as usize];
        &self.vertices[start..end]
    }

    /// The place of chain number `k` in the map read: its arc, and the numbers of its first and
    /// last vertex there. Thinning leaves it as it is.
    pub fn chain_ref(&self, k: u32) -> ChainRef
        requires { k < length self.now.chains }
        ensures { slice_get self.now.refs k ≡ Some result }
    {
        self.chains[k as usize].place
    }

    /// The number of feature points.
    pub fn point_count(&self) -> u32
        ensures value { result ≡ length self.now.read.points }
        ensures few { result ≤ 2 ^ 20 }
    {
        self.base.point_count()
    }

    /// The feature point number `k`.
    pub fn point(&self, k: u32) -> Point
        requires { k < length self.now.read.points }
        ensures { slice_get self.now.read.points k ≡ Some result }
    {
        self.base.point(k)
    }

    /// Leaves just the vertices of chain number `k` at the places `kept` in the chain as it is now,
    /// from 0. They keep their numbers in the arc as read. All else stays.
    pub fn thin(&mut self, k: u32, kept: &[u32])
        requires chain { k < length self.old.chains }
        requires kept { AreKeptIn (chain_at self.old.chains k) kept.now }
        ensures thinned { self.new ≡ thinned_work self.old k kept.now }
        // A table of chain ends stays right.
        ensures ends { (table : EndLists) → IsEndTable self.old.chains table
            → IsEndTable self.new.chains table }
    {
        let Span { start, end, .. } = self.chains[k as usize];
        keep(&mut self.vertices[start..end], kept);
        self.chains[k as usize].end = start + kept.len();
    }

    /// The map as it is now: its arcs are those that the chains make up, and the rest is as in the
    /// map read.
    pub fn finish(self) -> ArcMap
        ensures { result ≡ map_now self.read self.chains }
    {
        let WorkMap {
            base,
            vertices,
            chains,
        } = self;
        let (mut arcs, points, polygons, coded) = base.into_parts();
        let mut next = 0;
        for number in 0..arcs.len() {
            next = rejoin(&mut arcs[number], number as u32, &vertices, &chains, next);
        }
        ArcMap::new(arcs, points, polygons, coded)
    }
}

// Writes the chains of the arc, of which the first is the chain number `start`, into the arc, and
// gives the number of the first chain behind them.
fn rejoin(
    arc: &mut Vec<Point>,
    number: u32,
    vertices: &[Point],
    chains: &[Span],
    start: usize,
) -> usize
    requires known { start ≤ length chains.now }
    requires within { All (IsPartOf vertices.now) chains.now }
    requires room { 1 + length (tails (run_from number start vertices.now chains.now))
        ≤ length arc.old.items }
    ensures arc { arc.new.items
        ≡ rejoined arc.old.items (run_from number start vertices.now chains.now) }
    ensures next { result ≡ start + length (run_from number start vertices.now chains.now) }
{
    if start == chains.len() || chains[start].place.arc != number {
        return start;
    }
    arc[0] = vertices[chains[start].start];
    let mut end = 1;
    let mut next = start;
    while next < chains.len() && chains[next].place.arc == number {
        let chain = chains[next];
        let rest = &vertices[chain.start + 1..chain.end];
        write_at(arc, end, rest);
        end += rest.len();
        next += 1;
    }
    arc.truncate(end);
    next
}

// Writes the positions from place `end` on.
fn write_at(arc: &mut Vec<Point>, end: usize, rest: &[Point])
    requires { end + length rest.now ≤ length arc.old.items }
    ensures front { take (end + length rest.now) arc.new.items
        ≡ take end arc.old.items ++ rest.now }
    ensures count { length arc.new.items ≡ length arc.old.items }
{
    arc[end..end + rest.len()].copy_from_slice(rest);
}

// How many vertices the chains have in sum, unless that is more than a machine word holds.
fn vertex_count(chains: &[ChainRef]) -> usize {
    let mut count: usize = 0;
    for chain in chains {
        count = count.saturating_add(chain.to.abs_diff(chain.from) as usize + 1);
    }
    count
}

// The positions of the chain at this place of the map.
fn as_read(map: &ArcMap, place: ChainRef) -> &[Point]
    requires { LiesInArc map.now place }
    ensures { result.now ≡ slice_range (arc_at map.now place.arc) place.«from» (place.to + 1) }
{
    &map.arc(place.arc)[place.from as usize..place.to as usize + 1]
}

// Moves just the positions at the places `kept` to the front, in order.
fn keep(positions: &mut [Point], kept: &[u32])
    requires rising { IsStrictlyIncreasing kept.now }
    requires within { All (λ at. at < length positions.old) kept.now }
    ensures front { take (length kept.now) positions.new
        ≡ map (λ at. slice_index_or positions.old at nowhere) kept.now }
    ensures count { length positions.new ≡ length positions.old }
    ensures fewer { length kept.now ≤ length positions.old }
{
    for (place, at) in kept.iter().enumerate() {
        positions[place] = positions[*at as usize];
    }
}
