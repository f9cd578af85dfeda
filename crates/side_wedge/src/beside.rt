//! What stands beside one chain, and the consistency of its pairs.
ghost use Rattle.std.specs.Prelude.{◌≡◌, ◌↔◌, ◌+◌, ◌-◌, ◌*◌, ◌<◌, ◌≤◌, ℕ, ℤ, true, false, IfOk};
ghost use Rattle.std.specs.Prelude.{IsTrue, length, slice_index_or};
ghost use Rattle.grid_exact.specs.Geometry.{Place};
ghost use Rattle.chain_side.specs.Along.{IsAlong, vertex_at};
ghost use Rattle.lane_kernels.specs.Hands.{IsOnSide};
ghost use Rattle.lane_kernels.specs.declared.side.Hand.{Hand};
ghost use Rattle.arc_map.specs.Chains.{chain_at, IsClearIn};
ghost use Rattle.map_index.specs.IndexedMap.{items_in};
ghost use Rattle.side_wedge.specs.Obstacles.{IsConsistentPair};
ghost use Rattle.grid_exact.specs.Weights.{Scales};
ghost use Rattle.side_wedge.specs.Flanks.{HoldsReach, IsBeside, IsNearPair, StandsInRow};
ghost use Rattle.side_wedge.specs.Flanks.{KeepsSides, row_of};
ghost use Rattle.side_wedge.specs.Rows.{IsRow, KeepsAll, KeepsEdges};
ghost use Rattle.side_wedge.specs.Strays.{RunsAlong};
ghost use Rattle.side_wedge.specs.Wedge.{Lets, StartsAt, IsPast};

use crate::gather::{Subject, gather};
use crate::strays::{Stray, rises, write_places, write_starts};
use crate::wedge::Wedge;
use arc_map::NoMemory;
use chain_reach::Steps;
use grid_exact::{Bound, Direction, Frame, MAX_CHAIN_EDGES, Point, Weights};
use lane_kernels::{Hand, first_off_side};
use map_index::IndexedMap;
use std::alloc::Global;
use std::marker::Model;

// How many rows a chain has at most, and the end of the last: two rows to an edge.
const MOST_STARTS: usize = 2 * MAX_CHAIN_EDGES + 1;

/// What stands beside the edges of one chain, in memory that is taken once. Contracts see the
/// places by their rows, two to an edge, and for how many there is room.
#[derive(Drop)]
pub struct Beside {
    room: usize,
    frame: Frame,
    strays: Vec<Stray>,
    xs: Vec<i64>,
    ys: Vec<i64>,
    starts: Vec<usize>,
}

impl Model for Beside {
    ghost use Rattle.side_wedge.specs.Flanks.{Flanks};

    ghost Value = { Flanks };

    ghost use Rattle.side_wedge.specs.Layout.{flanks_of, AreLaid};

    ghost view = { flanks_of };

    ghost invariant = { AreLaid };
}

impl Beside {
    /// Nothing yet, with room for what stands beside a chain among so many items. The only error is
    /// want of memory.
    pub fn with_room(alloc: Global, items: usize) -> Result<Beside, NoMemory>
        ensures { IfOk result (λ beside. beside.room ≡ items) }
    {
        Ok(Beside {
            room: items,
            frame: Frame::Plain,
            strays: Vec::with_capacity(alloc, items)?,
            xs: Vec::with_capacity(alloc, items)?,
            ys: Vec::with_capacity(alloc, items)?,
            starts: Vec::with_capacity(alloc, MOST_STARTS)?,
        })
    }

    /// Finds what stands beside chain number `k` of the map: feature points and vertices of other
    /// chains, all at least that are in reach of the chain with these weights and this bound, in
    /// grid units. Nothing else can change sides where what is skipped is within the bound. It
    /// takes no memory.
    pub fn load(&mut self, map: &IndexedMap, k: u32, weights: Weights, bound: Bound)
        requires chain { k < length map.now.chains }
        requires room { items_in map.now ≤ self.old.room }
        ensures beside { IsBeside map.now.chains map.now.read.points k self.new }
        ensures reach { HoldsReach map.now.chains map.now.read.points k weights bound self.new }
        ensures room { self.new.room ≡ self.old.room }
    {
        let chain = map.chain(k);
        let frame = map.frame(k);
        let rising = rises(chain, frame);
        let subject = Subject {
            number: k,
            chain,
            direction: Direction { frame, rising },
            steps: Steps::of(weights, bound),
        };
        gather(&mut self.strays, &subject, map);
        write_starts(&mut self.starts, &self.strays, 2 * (chain.len() as u32 - 1));
        write_places(&mut self.xs, &mut self.ys, &self.strays);
        self.frame = frame;
    }

    /// Tells of each vertex number j of chain number `k` past the vertex number i, in place j of
    /// the row, whether nothing changes sides where the chain from i to j becomes a straight edge.
    /// A consistent pair (i, j) is told true. One that is told true is consistent where the skipped
    /// vertices are within a bound whose reach was loaded. The places up to i are false. The row
    /// may end before the chain does.
    pub fn consistent_from(&self, map: &IndexedMap, k: u32, i: usize, row: &mut [bool])
        requires chain { k < length map.now.chains }
        requires clear { IsClearIn map.now.chains map.now.read.points k }
        requires beside { IsBeside map.now.chains map.now.read.points k self.now }
        requires start { i < length row.old }
        requires row { length row.old ≤ length (chain_at map.now.chains k).rest + 1 }
        ensures consistent { (j : ℕ) → i < j → j < length row.new
            → IsConsistentPair map.now.chains map.now.read.points k i j
            → IsTrue (slice_index_or row.new j false) }
        ensures near { (weights : Scales) (bound : ℤ)
            → HoldsReach map.now.chains map.now.read.points k weights bound self.now
            → (j : ℕ) → i < j → j < length row.new → IsTrue (slice_index_or row.new j false)
            → IsNearPair weights bound (chain_at map.now.chains k) i j
            → IsConsistentPair map.now.chains map.now.read.points k i j }
        ensures before { (j : ℕ) → j ≤ i → slice_index_or row.new j false ≡ false }
        ensures length { length row.new ≡ length row.old }
    {
        let chain = map.chain(k);
        clear_to(row, i + 1);
        if self.is_empty() {
            allow_from(row, i + 1);
        } else {
            let frame = self.frame();
            let rising = rises(chain, frame);
            self.write_row(chain, Direction { frame, rising }, i, row);
        }
    }

    /// Tells of the pair (i, j) of vertices of chain number `k` whether nothing changes sides where
    /// the chain from i to j becomes a straight edge. A consistent pair is told true. One that is
    /// told true is consistent where the skipped vertices are within a bound whose reach was
    /// loaded.
    pub fn is_consistent(&self, map: &IndexedMap, k: u32, i: usize, j: usize) -> bool
        requires chain { k < length map.now.chains }
        requires clear { IsClearIn map.now.chains map.now.read.points k }
        requires beside { IsBeside map.now.chains map.now.read.points k self.now }
        requires order { i < j }
        requires within { j ≤ length (chain_at map.now.chains k).rest }
        ensures consistent { IsConsistentPair map.now.chains map.now.read.points k i j
            → IsTrue result }
        ensures near { (weights : Scales) (bound : ℤ)
            → HoldsReach map.now.chains map.now.read.points k weights bound self.now
            → IsTrue result → IsNearPair weights bound (chain_at map.now.chains k) i j
            → IsConsistentPair map.now.chains map.now.read.points k i j }
    {
        let chain = map.chain(k);
        self.keeps_all(i, j, chain[i], chain[j])
    }

    // Whether what stands beside the edges from the number i to before the number j keeps its hand
    // of the way from a to v. Edges after the last with something beside them are not looked at.
    fn keeps_all(&self, i: usize, j: usize, a: Point, v: Point) -> bool
        requires order { i < j }
        requires few { j < 1024 }
        requires rows { 2 * j < length self.now.starts }
        ensures { IsTrue result ↔ KeepsEdges self.now i j a v }
    {
        let end = self.starts[2 * j];
        let mut edge = i;
        while self.starts[2 * edge] < end {
            if !self.keeps_edge(edge, a, v) {
                return false;
            }
            edge += 1;
        }
        true
    }

    // Whether what stands beside the edge keeps its hand of the way from a to v.
    fn keeps_edge(&self, edge: usize, a: Point, v: Point) -> bool
        requires few { edge < 1024 }
        requires rows { 2 * edge + 2 < length self.now.starts }
        ensures { IsTrue result ↔ KeepsSides self.now edge a v }
    {
        if self.starts[2 * edge] == self.starts[2 * edge + 2] {
            return true;
        }
        if !self.keeps_row(2 * edge, Hand::Left, a, v) {
            return false;
        }
        self.keeps_row(2 * edge + 1, Hand::Right, a, v)
    }

    // Whether what stands in the row is on this hand of the way from a to v.
    fn keeps_row(&self, row: usize, hand: Hand, a: Point, v: Point) -> bool
        requires { row + 1 < length self.now.starts }
        ensures { IsTrue result ↔ ((p : Place) → StandsInRow self.now row p → IsOnSide hand a v p) }
    {
        let (xs, ys) = self.row(row);
        match first_off_side(a, v, xs, ys, hand) {
            None => true,
            Some(_) => false,
        }
    }

    /// The frame of the chain that was loaded.
    pub fn frame(&self) -> Frame
        ensures { result ≡ self.now.frame }
    {
        self.frame
    }

    // Whether nothing stands in any row.
    fn is_empty(&self) -> bool
        ensures { IsTrue result → (row : ℕ) (p : Place) → ¬ (StandsInRow self.now row p) }
    {
        self.xs.is_empty()
    }

    // Tells of each vertex number j past the vertex number i whether what stands between them keeps
    // its side. The places up to i stay. Once the wedge is closed, nothing keeps its side to a
    // later vertex.
    fn write_row(&self, chain: &[Point], direction: Direction, i: usize, row: &mut [bool])
        requires start { i < length row.old }
        requires short { length chain.now ≤ 1024 }
        requires row { length row.old ≤ length chain.now }
        requires rows { length self.now.starts + 1 ≡ 2 * length chain.now }
        requires runs { RunsAlong direction.frame direction.rising chain.now }
        requires past { (s : ℕ) (hand : Hand) (p : Place) → i ≤ s → s + 1 < length chain.now
            → StandsInRow self.now (row_of s hand) p
            → IsAlong direction.frame direction.rising (vertex_at chain.now i) p }
        ensures told { (j : ℕ) → i < j → j < length row.new
            → (IsTrue (slice_index_or row.new j false) ↔ KeepsAll self.now chain.now i j) }
        ensures before { (j : ℕ) → j ≤ i → slice_index_or row.new j false
            ≡ slice_index_or row.old j false }
        ensures length { length row.new ≡ length row.old }
    {
        let mut wedge = Wedge::start(direction, chain[i]);
        for edge in i..row.len() - 1 {
            self.narrow(&mut wedge, edge);
            if wedge.is_closed() {
                clear_from(row, edge + 1);
                return;
            }
            row[edge + 1] = wedge.admits(chain[edge + 1]);
        }
    }

    // Takes what stands beside the edge into the wedge.
    fn narrow(&self, wedge: &mut Wedge, edge: usize)
        requires few { edge < 1024 }
        requires rows { 2 * edge + 2 < length self.now.starts }
        requires past { (hand : Hand) (p : Place) → StandsInRow self.now (row_of edge hand) p
            → IsPast wedge.old p }
        ensures lets { (v : Place) → IsPast wedge.new v → Lets wedge.new v
            ↔ (Lets wedge.old v × KeepsSides self.now edge wedge.old.origin v) }
        ensures origin { StartsAt wedge.new wedge.old.direction.frame wedge.old.direction.rising
            wedge.old.origin }
    {
        let (xs, ys) = self.row(2 * edge);
        wedge.take_points(xs, ys, Hand::Left);
        let (xs, ys) = self.row(2 * edge + 1);
        wedge.take_points(xs, ys, Hand::Right);
    }

    // The coordinates of the places in a row.
    fn row(&self, row: usize) -> (&[i64], &[i64])
        requires { row + 1 < length self.now.starts }
        ensures { IsRow self.now row result.0.now result.1.now }
    {
        let start = self.starts[row];
        let end = self.starts[row + 1];
        (&self.xs[start..end], &self.ys[start..end])
    }
}

// Clears the places before the number `to`.
fn clear_to(row: &mut [bool], to: usize)
    requires { to ≤ length row.old }
    ensures clear { (j : ℕ) → j < to → slice_index_or row.new j false ≡ false }
    ensures length { length row.new ≡ length row.old }
{
    row[..to].fill(false);
}

// Clears the places from the number `from` on. Those before it stay.
fn clear_from(row: &mut [bool], from: usize)
    requires { from ≤ length row.old }
    ensures clear { (j : ℕ) → from ≤ j → j < length row.new
        → slice_index_or row.new j false ≡ false }
    ensures before { (j : ℕ) → j < from → slice_index_or row.new j false
        ≡ slice_index_or row.old j false }
    ensures length { length row.new ≡ length row.old }
{
    row[from..].fill(false);
}

// Sets the places from the number `from` on. Those before it stay.
fn allow_from(row: &mut [bool], from: usize)
    requires { from ≤ length row.old }
    ensures set { (j : ℕ) → from ≤ j → j < length row.new → slice_index_or row.new j false ≡ true }
    ensures before { (j : ℕ) → j < from → slice_index_or row.new j false
        ≡ slice_index_or row.old j false }
    ensures length { length row.new ≡ length row.old }
{
    row[from..].fill(true);
}
