//! Whether a pair of a chain's vertices is allowed, by plain tests over the whole map.
ghost use Rattle.std.specs.Prelude.{◌≡◌, ◌≢◌, ◌<◌, ◌≤◌, ◌↔◌, ℕ, All, IsTrue, length};
ghost use Rattle.grid_exact.specs.Near.{weighted};
ghost use Rattle.grid_exact.specs.Weights.{StaysOnGrid};
ghost use Rattle.arc_map.specs.Allowed.{IsConsistent};
ghost use Rattle.arc_map.specs.Chains.{chain_at, chain_places, IsWithinBound};
ghost use Rattle.arc_map.specs.Paths.{IsAllowedPair};
ghost use Rattle.cert_checker.specs.Open.{IsOpen, Joins, LetsRun};
ghost use Rattle.cert_checker.specs.Runs.{run_end, run_inner};

use crate::sides::is_consistent;
use arc_map::WorkMap;
use grid_exact::{Bound, Point, Weights, same_ends, within};

/// Whether the pair of the vertices number `i` and `j` of chain number `k` is allowed: the edge
/// between them may take the place of the run from one to the other. It is looked at all feature
/// points and all other chains.
pub fn allowed(work: &WorkMap, k: u32, i: u32, j: u32, bound: Bound, weights: Weights) -> bool
    requires chain { k < length work.now.chains }
    requires order { i < j }
    requires within { j ≤ length (chain_at work.now.chains k).rest }
    requires on_grid { All (StaysOnGrid weights) (chain_places (chain_at work.now.chains k)) }
    ensures { IsTrue result ↔ IsAllowedPair (IsWithinBound weights.x weights.y bound)
        work.now.chains work.now.read.points k i j }
{
    let chain = work.chain(k);
    let (from, to) = (i as usize, j as usize);
    if from + 1 == to {
        return true;
    }
    let first = chain[from];
    let rest = &chain[from + 1..to + 1];
    is_near(first, rest, bound, weights) && is_open(work, k, first, rest)
}

// Whether the vertices between the ends of the run from the first place along the rest are within
// the bound of the segment between its ends.
fn is_near(first: Point, rest: &[Point], bound: Bound, weights: Weights) -> bool
    requires some { 0 < length rest.now }
    requires first_on_grid { StaysOnGrid weights first }
    requires on_grid { All (StaysOnGrid weights) rest.now }
    ensures { IsTrue result
        ↔ All (IsWithinBound weights.x weights.y bound first (run_end first rest.now))
        (run_inner rest.now) }
{
    let last = rest.len() - 1;
    let from = weigh(weights, first);
    let to = weigh(weights, rest[last]);
    for p in &rest[..last] {
        if !within(from, to, weigh(weights, *p), bound) {
            return false;
        }
    }
    true
}

// The point with its coordinates times the weights.
pub fn weigh(weights: Weights, p: Point) -> Point
    requires { StaysOnGrid weights p }
    ensures { result ≡ weighted weights.x weights.y p }
{
    weights.apply(p).unwrap()
}

// Whether the feature points and all chains but the chain number `k` let the run become the segment
// between its ends.
fn is_open(work: &WorkMap, k: u32, first: Point, rest: &[Point]) -> bool
    requires { 0 < length rest.now }
    ensures { IsTrue result ↔ IsOpen work.now.chains work.now.read.points k first
        (run_inner rest.now) (run_end first rest.now) }
{
    towns_let(work, first, rest) && chains_let(work, k, first, rest)
}

// Whether no feature point changes sides.
fn towns_let(work: &WorkMap, first: Point, rest: &[Point]) -> bool
    requires { 0 < length rest.now }
    ensures { IsTrue result ↔ All (IsConsistent first (run_end first rest.now) (run_inner rest.now))
        work.now.read.points }
{
    for town in 0..work.point_count() {
        if !is_consistent(first, rest, work.point(town)) {
            return false;
        }
    }
    true
}

// Whether all chains but the chain number `k` let the run become the segment.
fn chains_let(work: &WorkMap, k: u32, first: Point, rest: &[Point]) -> bool
    requires { 0 < length rest.now }
    ensures { IsTrue result ↔ ((l : ℕ) → l < length work.now.chains → l ≢ k
        → 0 < length (chain_at work.now.chains l).rest
        → LetsRun first (run_inner rest.now) (run_end first rest.now)
        (chain_places (chain_at work.now.chains l))) }
{
    for other in 0..work.chain_count() {
        if other != k {
            if !chain_lets(work.chain(other), first, rest) {
                return false;
            }
        }
    }
    true
}

// Whether the chain with these vertices lets the run become the segment.
fn chain_lets(chain: &[Point], first: Point, rest: &[Point]) -> bool
    requires { 0 < length rest.now }
    ensures { IsTrue result
        ↔ LetsRun first (run_inner rest.now) (run_end first rest.now) chain.now }
{
    for p in chain {
        if !is_consistent(first, rest, *p) {
            return false;
        }
    }
    !joins(chain, first, rest[rest.len() - 1])
}

// Whether an edge of the chain with these vertices joins v and w.
pub fn joins(chain: &[Point], v: Point, w: Point) -> bool
    ensures { IsTrue result ↔ Joins v w chain.now }
{
    for at in 1..chain.len() {
        if same_ends(v, w, chain[at - 1], chain[at]) {
            return true;
        }
    }
    false
}
