//! The tests of one entry of a certificate.
ghost use Rattle.std.specs.Prelude.{◌≡◌, ◌<◌, ◌≤◌, ◌+◌, ◌↔◌, IsTrue, MatchOption, length};
ghost use Rattle.arc_map.specs.Chains.{Chain, chain_at};
ghost use Rattle.arc_map.specs.Work.{AreKeptIn};
ghost use Rattle.error_cone.specs.Courses.{IsConeFrom, LetsNear};
ghost use Rattle.cert_checker.specs.Judged.{AreSteps, EndWell, FallSlowly, IsAccepted, IsFault};
ghost use Rattle.cert_checker.specs.Judged.{IsFirstBadStep, IsFirstFall};
ghost use Rattle.cert_checker.specs.Runs.{place_at};
ghost use Rattle.cert_checker.specs.Subject.{FallFirstAt, FallNowhere, IsSubjectOf, edge_count};
ghost use Rattle.cert_checker.specs.Subject.{pairs_of, record_of};
ghost use Rattle.cert_checker.specs.declared.verdicts.Verdict.TheVariants.{No};

use crate::indexed::is_open;
use crate::near::is_near;
use crate::verdicts::Reason;
use arc_map::ChainRecord;
use error_cone::Cone;
use grid_exact::{Bound, Direction, Point, Weights, precedes};
use map_index::IndexedMap;

// A chain that is judged: its number, its vertices with their coordinates times the weights, and
// the bound.
#[derive(Clone, Copy)]
pub struct Subject<'a> {
    pub chain: u32,
    pub weighted: &'a [Point],
    pub weights: Weights,
    pub bound: Bound,
}

// Whether the pair of the vertices number `i` and `j` of the chain is allowed. The nearness part
// comes first, since nearly all pairs fail there; see `is_near` for the culprit.
fn allows(map: &IndexedMap, subject: &Subject<'_>, i: usize, j: usize, culprit: &mut usize) -> bool
    requires subject { IsSubjectOf map.now subject.now.chain subject.now.weighted.now
        subject.now.weights }
    requires order { i < j }
    requires within { j ≤ edge_count map.now subject.now.chain }
    ensures { IsTrue result ↔ pairs_of map.now subject.now.chain subject.now.weights
        subject.now.bound i j }
{
    if i + 1 == j {
        return true;
    }
    is_near(subject.weighted, i, j, subject.bound, culprit) && is_open(map, subject.chain, i, j)
}

// The first step of the kept vertices that is not allowed.
fn first_bad_step(map: &IndexedMap, subject: &Subject<'_>, kept: &[u32]) -> Option<(u32, u32)>
    requires subject { IsSubjectOf map.now subject.now.chain subject.now.weighted.now
        subject.now.weights }
    requires kept { AreKeptIn (chain_at map.now.chains subject.now.chain) kept.now }
    ensures { MatchOption result
        (AreSteps (pairs_of map.now subject.now.chain subject.now.weights subject.now.bound)
        kept.now)
        (λ step. IsFirstBadStep (pairs_of map.now subject.now.chain subject.now.weights
        subject.now.bound) kept.now step.0 step.1) }
{
    let mut culprit = 0;
    for at in 1..kept.len() {
        let (i, j) = (kept[at - 1], kept[at]);
        if !allows(map, subject, i as usize, j as usize, &mut culprit) {
            return Some((i, j));
        }
    }
    None
}

// The first pair of the chain's vertices that is allowed though the layers fall by more than 1 over
// it.
fn first_fall(map: &IndexedMap, subject: &Subject<'_>, layers: &[u32]) -> Option<(u32, u32)>
    requires subject { IsSubjectOf map.now subject.now.chain subject.now.weighted.now
        subject.now.weights }
    requires layers { length layers.now ≡ edge_count map.now subject.now.chain + 1 }
    requires short { length layers.now ≤ 1024 }
    ensures { MatchOption result
        (FallSlowly (pairs_of map.now subject.now.chain subject.now.weights subject.now.bound)
        (edge_count map.now subject.now.chain) layers.now)
        (λ pair. IsFirstFall (pairs_of map.now subject.now.chain subject.now.weights
        subject.now.bound) (edge_count map.now subject.now.chain) layers.now pair.0 pair.1) }
{
    for i in 0..layers.len() {
        if let Some(j) = first_fall_from(map, subject, layers, i) {
            return Some((i as u32, j as u32));
        }
    }
    None
}

// The first vertex whose pair with the vertex number `i` is such a pair.
fn first_fall_from(
    map: &IndexedMap,
    subject: &Subject<'_>,
    layers: &[u32],
    i: usize,
) -> Option<usize>
    requires subject { IsSubjectOf map.now subject.now.chain subject.now.weighted.now
        subject.now.weights }
    requires layers { length layers.now ≡ edge_count map.now subject.now.chain + 1 }
    requires start { i < length layers.now }
    ensures { MatchOption result
        (FallNowhere (pairs_of map.now subject.now.chain subject.now.weights subject.now.bound)
        layers.now i (length layers.now))
        (FallFirstAt (pairs_of map.now subject.now.chain subject.now.weights subject.now.bound)
        layers.now i) }
{
    let limit = layers[i].saturating_sub(1);
    if limit == 0 {
        return None;
    }
    let mut culprit = 0;
    let mut cone = cone_from(map, subject, i);
    for j in i + 1..layers.len() {
        if layers[j] < limit {
            if allows(map, subject, i, j, &mut culprit) {
                return Some(j);
            }
            cone.take(subject.weighted[j]);
            if cone.is_closed() {
                return None;
            }
        }
    }
    None
}

// The cone of the bound from the vertex number `i` of the chain, over the coordinates times the
// weights.
fn cone_from(map: &IndexedMap, subject: &Subject<'_>, i: usize) -> Cone
    requires subject { IsSubjectOf map.now subject.now.chain subject.now.weighted.now
        subject.now.weights }
    requires start { i < length subject.now.weighted.now }
    ensures start { IsConeFrom result (place_at subject.now.weighted.now)
        (length subject.now.weighted.now) subject.now.bound i }
    ensures lets { LetsNear result (place_at subject.now.weighted.now)
        (length subject.now.weighted.now) subject.now.bound i (i + 1) }
{
    // The weights are above 0, as their readers say, so the weighted places run along as the chain
    // does.
    let _ = (subject.weights.x(), subject.weights.y());
    let places = subject.weighted;
    let frame = map.frame(subject.chain);
    let rising = precedes(frame, places[0], places[places.len() - 1]);
    Cone::start(Direction { frame, rising }, places[i], subject.bound)
}

// Whether the kept vertices rise from the first vertex of a chain of so many edges to its last.
fn is_kept(kept: &[u32], edges: usize) -> bool
    ensures { (chain : Chain) → length chain.rest ≡ edges → IsTrue result
        ↔ AreKeptIn chain kept.now }
{
    if kept.is_empty() {
        return false;
    }
    if kept[0] != 0 {
        return false;
    }
    if kept[kept.len() - 1] as usize != edges {
        return false;
    }
    for at in 1..kept.len() {
        if kept[at - 1] >= kept[at] {
            return false;
        }
    }
    true
}

// Whether the layers are one for each vertex of a chain of so many edges, and lead from the number
// of steps to 0.
fn end_well(edges: usize, kept: &[u32], layers: &[u32]) -> bool
    requires edges { edges < 1024 }
    requires kept { 0 < length kept.now }
    ensures { IsTrue result ↔ EndWell edges kept.now layers.now }
{
    if layers.len() != edges + 1 {
        return false;
    }
    if layers[edges] != 0 {
        return false;
    }
    layers[0] as usize == kept.len() - 1
}

// Why the record, which is that of the entry number `entry`, is refused for the chain; None where
// it is accepted.
pub fn refusal(
    map: &IndexedMap,
    subject: &Subject<'_>,
    entry: u32,
    said: &ChainRecord<'_>,
) -> Option<Reason>
    requires subject { IsSubjectOf map.now subject.now.chain subject.now.weighted.now
        subject.now.weights }
    ensures { MatchOption result
        (IsAccepted (pairs_of map.now subject.now.chain subject.now.weights subject.now.bound)
        (chain_at map.now.chains subject.now.chain) (record_of said.now))
        (λ reason. IsFault (pairs_of map.now subject.now.chain subject.now.weights
        subject.now.bound) (chain_at map.now.chains subject.now.chain) entry
        (record_of said.now) (No reason)) }
{
    let edges = map.chain(subject.chain).len() - 1;
    if !is_kept(said.kept, edges) {
        return Some(Reason::Kept(entry));
    }
    if let Some((i, j)) = first_bad_step(map, subject, said.kept) {
        return Some(Reason::Path(entry, i, j));
    }
    if !end_well(edges, said.kept, said.layers) {
        return Some(Reason::Ends(entry));
    }
    if let Some((i, j)) = first_fall(map, subject, said.layers) {
        return Some(Reason::Layers(entry, i, j));
    }
    None
}
