//! Whether the rest of a map lets a run of a chain become the segment between its ends, by the
//! items that stand near and the chains with an end there.
ghost use Rattle.std.specs.Prelude.{◌≡◌, ◌≢◌, ◌<◌, ◌≤◌, ◌↔◌, All, IsTrue, length};
ghost use Rattle.sweep_index.specs.Walk.{items_left};
ghost use Rattle.arc_map.specs.Chains.{chain_at, IsClearIn};
ghost use Rattle.cert_checker.specs.Indexed.{IsDouble, ItemLets};
ghost use Rattle.cert_checker.specs.Open.{IsOpenPair, Joins};
ghost use Rattle.cert_checker.specs.Runs.{run_end, run_inner};

use crate::extent::Extent;
use crate::plain::joins;
use crate::sides::is_consistent;
use grid_exact::Point;
use map_index::{IndexedMap, is_other};
use sweep_index::Walk;

// Whether the feature points and all chains but the chain number `k`, which is clear, let its run
// between the vertices number `i` and `j` become the segment between the two. Only what stands in
// the box round the run is looked at.
pub fn is_open(map: &IndexedMap, k: u32, i: usize, j: usize) -> bool
    requires chain { k < length map.now.chains }
    requires clear { IsClearIn map.now.chains map.now.read.points k }
    requires order { i < j }
    requires within { j ≤ length (chain_at map.now.chains k).rest }
    ensures { IsTrue result ↔ IsOpenPair map.now.chains map.now.read.points k i j }
{
    let chain = map.chain(k);
    if is_double(map, k, chain[i], chain[j]) {
        return false;
    }
    let first = chain[i];
    let rest = &chain[i + 1..j + 1];
    let extent = Extent::of(first, rest);
    items_let(map.in_box(extent.low, extent.high), k, first, rest)
}

// Whether another chain than the chain number `k` is one edge between v and w.
fn is_double(map: &IndexedMap, k: u32, v: Point, w: Point) -> bool
    ensures { IsTrue result ↔ IsDouble map.now.chains k v w }
{
    for other in map.chains_at(v) {
        if *other != k {
            if is_edge(map.chain(*other), v, w) {
                return true;
            }
        }
    }
    false
}

// Whether the chain with these vertices is one edge between v and w.
fn is_edge(chain: &[Point], v: Point, w: Point) -> bool
    ensures { IsTrue result ↔ ((length chain.now ≡ 2) × Joins v w chain.now) }
{
    if chain.len() != 2 {
        return false;
    }
    joins(chain, v, w)
}

// Whether no item of the walk changes sides, but for vertices of the chain number `k`.
fn items_let(mut walk: Walk<'_>, k: u32, first: Point, rest: &[Point]) -> bool
    requires { 0 < length rest.now }
    ensures { IsTrue result ↔ All (ItemLets k first (run_inner rest.now) (run_end first rest.now))
        (items_left walk.entry) }
{
    while let Some((_, item)) = walk.next() {
        if is_other(item.owner, k) {
            if !is_consistent(first, rest, item.at) {
                return false;
            }
        }
    }
    true
}
