//! The tests of one entry of a certificate, each pair by `cert_checker::allowed` alone.
ghost use Rattle.std.specs.Prelude.{◌≡◌, ◌<◌, ◌+◌, ◌↔◌, All, IsTrue, MatchOption, length};
ghost use Rattle.grid_exact.specs.Weights.{StaysOnGrid};
ghost use Rattle.arc_map.specs.Chains.{Chain, chain_at, chain_places};
ghost use Rattle.arc_map.specs.Work.{AreKeptIn};
ghost use Rattle.cert_checker.specs.Judged.{AreSteps, EndWell, FallSlowly, IsAccepted, IsFault};
ghost use Rattle.cert_checker.specs.Judged.{IsFirstBadStep, IsFirstFall};
ghost use Rattle.cert_checker.specs.Subject.{FallFirstAt, FallNowhere, edge_count, pairs_of};
ghost use Rattle.cert_checker.specs.Subject.{record_of};
ghost use Rattle.cert_checker.specs.declared.verdicts.Verdict.TheVariants.{No};

use arc_map::{ChainRecord, WorkMap};
use cert_checker::{Reason, allowed};
use grid_exact::{Bound, Weights};

// The first step of the kept vertices of chain number `k` that is not allowed.
fn first_bad_step(
    work: &WorkMap,
    k: u32,
    bound: Bound,
    weights: Weights,
    kept: &[u32],
) -> Option<(u32, u32)>
    requires chain { k < length work.now.chains }
    requires on_grid { All (StaysOnGrid weights) (chain_places (chain_at work.now.chains k)) }
    requires kept { AreKeptIn (chain_at work.now.chains k) kept.now }
    ensures { MatchOption result
        (AreSteps (pairs_of work.now k weights bound) kept.now)
        (λ step. IsFirstBadStep (pairs_of work.now k weights bound) kept.now step.0 step.1) }
{
    for at in 1..kept.len() {
        let (i, j) = (kept[at - 1], kept[at]);
        if !allowed(work, k, i, j, bound, weights) {
            return Some((i, j));
        }
    }
    None
}

// The first pair of the chain's vertices, by the one that is numbered lower, then by the other,
// that is allowed though the layers fall by more than 1 over it.
fn first_fall(
    work: &WorkMap,
    k: u32,
    bound: Bound,
    weights: Weights,
    layers: &[u32],
) -> Option<(u32, u32)>
    requires chain { k < length work.now.chains }
    requires on_grid { All (StaysOnGrid weights) (chain_places (chain_at work.now.chains k)) }
    requires layers { length layers.now ≡ edge_count work.now k + 1 }
    ensures { MatchOption result
        (FallSlowly (pairs_of work.now k weights bound) (edge_count work.now k) layers.now)
        (λ pair. IsFirstFall (pairs_of work.now k weights bound) (edge_count work.now k)
        layers.now pair.0 pair.1) }
{
    let count = work.chain(k).len() as u32;
    for i in 0..count {
        if let Some(j) = first_fall_from(work, k, bound, weights, layers, i) {
            return Some((i, j));
        }
    }
    None
}

// The first vertex whose pair with the vertex number `i` is such a pair.
fn first_fall_from(
    work: &WorkMap,
    k: u32,
    bound: Bound,
    weights: Weights,
    layers: &[u32],
    i: u32,
) -> Option<u32>
    requires chain { k < length work.now.chains }
    requires on_grid { All (StaysOnGrid weights) (chain_places (chain_at work.now.chains k)) }
    requires layers { length layers.now ≡ edge_count work.now k + 1 }
    requires start { i < length layers.now }
    ensures { MatchOption result
        (FallNowhere (pairs_of work.now k weights bound) layers.now i (length layers.now))
        (FallFirstAt (pairs_of work.now k weights bound) layers.now i) }
{
    let count = work.chain(k).len() as u32;
    for j in i + 1..count {
        if falls(layers[i as usize], layers[j as usize]) {
            if allowed(work, k, i, j, bound, weights) {
                return Some(j);
            }
        }
    }
    None
}

// Whether from the one layer to the other it falls by more than 1.
fn falls(from: u32, to: u32) -> bool
    ensures { IsTrue result ↔ to + 1 < from }
{
    to < from && 1 < from - to
}

// Whether the kept vertices rise from the first vertex of a chain of so many edges to its last.
fn is_kept(kept: &[u32], edges: usize) -> bool
    ensures { (chain : Chain) → length chain.rest ≡ edges → IsTrue result
        ↔ AreKeptIn chain kept.now }
{
    match (kept.first(), kept.last()) {
        (Some(0), Some(last)) if *last as usize == edges => {}
        _ => return false,
    }
    for at in 1..kept.len() {
        if kept[at - 1] >= kept[at] {
            return false;
        }
    }
    true
}

// Whether the layers are one for each vertex of a chain of so many edges, and lead from the number
// of steps to 0.
fn end_well(edges: usize, kept: &[u32], layers: &[u32]) -> bool
    requires edges { edges < 1024 }
    requires kept { 0 < length kept.now }
    ensures { IsTrue result ↔ EndWell edges kept.now layers.now }
{
    layers.len() == edges + 1 && layers[edges] == 0 && layers[0] as usize + 1 == kept.len()
}

/// Why the record, which is that of the entry number `entry`, is refused for chain number `k` of
/// the map at work; None where it is accepted. All pairs are looked at over the whole map.
pub fn refusal(
    work: &WorkMap,
    k: u32,
    bound: Bound,
    weights: Weights,
    entry: u32,
    said: &ChainRecord<'_>,
) -> Option<Reason>
    requires chain { k < length work.now.chains }
    requires on_grid { All (StaysOnGrid weights) (chain_places (chain_at work.now.chains k)) }
    ensures { MatchOption result
        (IsAccepted (pairs_of work.now k weights bound) (chain_at work.now.chains k)
        (record_of said.now))
        (λ reason. IsFault (pairs_of work.now k weights bound) (chain_at work.now.chains k) entry
        (record_of said.now) (No reason)) }
{
    let edges = work.chain(k).len() - 1;
    if !is_kept(said.kept, edges) {
        return Some(Reason::Kept(entry));
    }
    if let Some((i, j)) = first_bad_step(work, k, bound, weights, said.kept) {
        return Some(Reason::Path(entry, i, j));
    }
    if !end_well(edges, said.kept, said.layers) {
        return Some(Reason::Ends(entry));
    }
    if let Some((i, j)) = first_fall(work, k, bound, weights, said.layers) {
        return Some(Reason::Layers(entry, i, j));
    }
    None
}
