//! The judge of certificates.
ghost use Rattle.std.specs.Prelude.{◌≡◌, ◌<◌, ◌≤◌, ◌^◌, ◌+◌, ◌↔◌, ℕ, [], All, Contains, IfOk};
ghost use Rattle.std.specs.Prelude.{IfNone, IfSome, IsNone, IsTrue, MatchOption, Some, drop};
ghost use Rattle.std.specs.Prelude.{length, map, slice_get, unsigned_abs, vec_capacity};
ghost use Rattle.grid_exact.specs.Near.{weighted};
ghost use Rattle.grid_exact.specs.Weights.{StaysOnGrid};
ghost use Rattle.arc_map.specs.Arcs.{map_now};
ghost use Rattle.arc_map.specs.Chains.{chain_at};
ghost use Rattle.arc_map.specs.Work.{thinned_work};
ghost use Rattle.arc_map.specs.declared.refs.ChainRef.{ChainRef};
ghost use Rattle.cert_format.specs.Content.{content_of};
ghost use Rattle.map_index.specs.MapIndex.{IsAsRead};
ghost use Rattle.monotone_split.specs.Laws.{OutcomeOf};
ghost use Rattle.cert_checker.specs.Difference.{IsFirstDifference};
ghost use Rattle.cert_checker.specs.Judged.{Agrees, AreJudged, IsAccepted, IsFault, IsJudged};
ghost use Rattle.cert_checker.specs.Judged.{IsMismatch, chain_spot, demand, free_chains};
ghost use Rattle.cert_checker.specs.Judged.{free_numbers, is_free, record_spot};
ghost use Rattle.cert_checker.specs.Laws.{KeepsChains};
ghost use Rattle.cert_checker.specs.Judging.{IsAfter, IsFresh, IsFreshFor, IsKnown, KeepsBase};
ghost use Rattle.cert_checker.specs.Subject.{pairs_of, record_of};
ghost use Rattle.cert_checker.specs.declared.verdicts.Verdict.TheVariants.{No, Yes};

use crate::entry::{Subject, refusal};
use crate::plain::weigh;
use crate::prefixes::compare_arcs;
use crate::verdicts::{Reason, Verdict};
use arc_map::{ArcList, ArcMap, ChainRecord, ChainRef, NoMemory, RunRecords};
use arrangement_check::Partly;
use cert_format::Certificate;
use grid_exact::{Bound, MAX_CHAIN_VERTICES, Point, Weights};
use map_index::IndexedMap;
use monotone_split::split;
use std::alloc::Global;
use std::marker::Model;

/// A map with its held arcs, for which one certificate is judged. Contracts see the map at work,
/// the held arcs, and the verdict, where one is given.
#[derive(Drop)]
pub struct JudgeState {
    map: IndexedMap,
    held: ArcList,
    weighted: Vec<Point>,
    verdict: Option<Verdict>,
}

impl Model for JudgeState {
    ghost use Rattle.cert_checker.specs.Judging.{Judging};
    ghost use Rattle.cert_checker.specs.JudgeState.{IsSound};

    ghost Value = { Judging };

    ghost view = { λ s. record { work = s.map; held = s.held; verdict = s.verdict } };

    ghost invariant = { IsSound };
}

impl JudgeState {
    /// A fresh state for the map and its held arcs. It takes all memory of the judge. The only
    /// error is want of memory.
    pub fn new(alloc: Global, partly: Partly) -> Result<JudgeState, NoMemory>
        ensures { IfOk result (IsFreshFor partly) }
    {
        let (map, held) = partly.into_parts();
        let chains = split(alloc, &map)?;
        let map = IndexedMap::build(alloc, map, chains)?;
        let weighted = Vec::with_capacity(alloc, MAX_CHAIN_VERTICES)?;
        Ok(JudgeState {
            map,
            held,
            weighted,
            verdict: None,
        })
    }

    /// The judged map: the chain of each entry of the certificate has just its kept vertices. The
    /// verdict was Yes.
    pub fn finish(self) -> ArcMap
        requires { self.verdict ≡ Some Yes }
        ensures { result ≡ map_now self.work.read self.work.chains }
    {
        self.map.finish()
    }

    // How many chains there are.
    fn chain_count(&self) -> u32
        ensures refs { result ≡ length self.now.work.refs }
        ensures chains { result ≡ length self.now.work.chains }
        ensures few { result ≤ 2 ^ 20 }
    {
        self.map.work().chain_count()
    }

    // The place of chain number `k` in the map read.
    fn place(&self, k: u32) -> ChainRef
        requires { k < length self.now.work.chains }
        ensures { slice_get self.now.work.refs k ≡ Some result }
    {
        self.map.work().chain_ref(k)
    }

    // Whether the arc of the chain at this place is not held.
    fn is_free(&self, place: ChainRef) -> bool
        ensures { (k : ℕ) → result ≡ is_free self.now.held (k, place) }
    {
        !self.held.has(place.arc)
    }

    // The first of these that is not as demanded, or does not fit the map: the version, the bound,
    // the weights, the held arcs, the chains.
    fn mismatch(
        &self,
        cert: &Certificate,
        version: u32,
        bound: Bound,
        weights: Weights,
    ) -> Option<Reason>
        ensures known { IsKnown self.now.held self.now.work }
        ensures told { MatchOption result
            (Agrees (demand version bound weights) self.now.held self.now.work.refs
            (content_of cert.now))
            (λ reason. IsMismatch (demand version bound weights) self.now.held self.now.work.refs
            (content_of cert.now) (No reason)) }
    {
        let held = &self.held;
        if cert.version != version {
            return Some(Reason::Version);
        }
        if !is_bound(cert.bound, bound) {
            return Some(Reason::Bound);
        }
        if !are_weights(cert.weights, weights) {
            return Some(Reason::Weights);
        }
        match compare_arcs(&cert.held, held) {
            Some(at) => Some(Reason::Held(at)),
            None => match self.compare_chains(&cert.records) {
                Some(at) => Some(Reason::Chains(at)),
                None => None,
            },
        }
    }

    // The place where the list of the chains that the records name first differs from that of the
    // map's chains whose arcs are not held, or None where they are equal.
    fn compare_chains(&self, records: &RunRecords) -> Option<u32>
        ensures equal { IsNone result
            ↔ (map record_spot records.now.entries
            ≡ map chain_spot (free_chains self.now.held self.now.work.refs)) }
        ensures first { IfSome result (IsFirstDifference (map record_spot records.now.entries)
            (map chain_spot (free_chains self.now.held self.now.work.refs))) }
    {
        let mut entry = 0;
        for k in 0..self.chain_count() {
            let place = self.place(k);
            if self.is_free(place) {
                if entry == records.count() {
                    return Some(entry);
                }
                if !is_at(&records.get(entry), place) {
                    return Some(entry);
                }
                entry += 1;
            }
        }
        if entry < records.count() {
            Some(entry)
        } else {
            None
        }
    }

    // The verdict on the entries, which are of the map's chains whose arcs are not held.
    fn judge_entries(&mut self, records: &RunRecords, bound: Bound, weights: Weights) -> Verdict
        requires chains { map record_spot records.now.entries
            ≡ map chain_spot (free_chains self.old.held self.old.work.refs) }
        requires read { (k : ℕ) → k < length self.old.work.refs → IsAsRead self.old.work k }
        requires on_grid { All (All (StaysOnGrid weights)) self.old.work.read.arcs }
        ensures judged { (version : ℕ)
            → AreJudged (demand version bound weights) self.old.work.read.points
            self.old.work.chains (free_numbers self.old.held self.old.work.refs) 0
            records.now.entries result self.new.work.chains }
        ensures base { KeepsBase self.old self.new }
    {
        let mut entry = 0;
        for k in 0..self.chain_count() {
            let place = self.place(k);
            if self.is_free(place) {
                match self.judge_entry(entry, k, &records.get(entry), bound, weights) {
                    Some(reason) => return Verdict::No(reason),
                    None => entry += 1,
                }
            }
        }
        Verdict::Yes
    }

    // Why the entry is refused for chain number `k`; None where it is accepted, and then the chain
    // is thinned.
    fn judge_entry(
        &mut self,
        entry: u32,
        k: u32,
        said: &ChainRecord<'_>,
        bound: Bound,
        weights: Weights,
    ) -> Option<Reason>
        requires chain { k < length self.old.work.chains }
        requires place { k < length self.old.work.refs }
        requires free { ¬ (Contains self.old.held (chain_at self.old.work.chains k).first.arc) }
        requires read { IsAsRead self.old.work k }
        requires on_grid { All (All (StaysOnGrid weights)) self.old.work.read.arcs }
        ensures told { MatchOption result
            (IsAccepted (pairs_of self.old.work k weights bound) (chain_at self.old.work.chains k)
            (record_of said.now))
            (λ reason. IsFault (pairs_of self.old.work k weights bound)
            (chain_at self.old.work.chains k) entry (record_of said.now) (No reason)) }
        ensures thinned { IfNone result (self.new
            ≡ record self.old { work = thinned_work self.old.work k said.now.kept.now }) }
        ensures same { IfSome result (λ _. self.new ≡ self.old) }
    {
        weigh_all(&mut self.weighted, self.map.chain(k), weights);
        let subject = Subject {
            chain: k,
            weighted: self.weighted.as_slice(),
            weights,
            bound,
        };
        match refusal(&self.map, &subject, entry, said) {
            Some(reason) => Some(reason),
            None => {
                self.map.thin(k, said.kept);
                None
            }
        }
    }
}

/// The verdict on the certificate for the map of the state, where this version, this bound and
/// these weights are demanded: Yes, or the first reason against it. After Yes the map of the state
/// is the judged map: the chain of each entry has just its kept vertices. No memory is taken.
pub fn judge(
    state: &mut JudgeState,
    cert: &Certificate,
    version: u32,
    bound: Bound,
    weights: Weights,
) -> Verdict
    requires fresh { IsFresh state.old }
    requires on_grid { All (All (StaysOnGrid weights)) state.old.work.read.arcs }
    ensures judged { IsJudged (demand version bound weights) state.old.held state.old.work
        (content_of cert.now) result state.new.work.chains }
    ensures after { IsAfter result state.old state.new }
    ensures sound { result ≡ Yes
        → OutcomeOf state.old.held state.old.work.read state.new.work.chains }
    ensures chains { result ≡ Yes
        → KeepsChains (demand version bound weights) state.old.held state.old.work.chains
        state.new.work.chains }
{
    let verdict = verdict_on(state, cert, version, bound, weights);
    state.verdict = Some(verdict);
    verdict
}

// The verdict, before it is kept.
fn verdict_on(
    state: &mut JudgeState,
    cert: &Certificate,
    version: u32,
    bound: Bound,
    weights: Weights,
) -> Verdict
    requires fresh { IsFresh state.old }
    requires on_grid { All (All (StaysOnGrid weights)) state.old.work.read.arcs }
    ensures judged { IsJudged (demand version bound weights) state.old.held state.old.work
        (content_of cert.now) result state.new.work.chains }
    ensures base { KeepsBase state.old state.new }
    ensures known { IsKnown state.old.held state.old.work }
{
    match state.mismatch(cert, version, bound, weights) {
        Some(reason) => Verdict::No(reason),
        None => state.judge_entries(&cert.records, bound, weights),
    }
}

// Whether the two bounds are one.
fn is_bound(given: Bound, wanted: Bound) -> bool
    ensures { IsTrue result ↔ (unsigned_abs given ≡ unsigned_abs wanted) }
{
    given.value() == wanted.value()
}

// Whether the weights are the same on both axes.
fn are_weights(given: Weights, wanted: Weights) -> bool
    ensures { IsTrue result ↔ ((unsigned_abs given.x ≡ unsigned_abs wanted.x)
        × (unsigned_abs given.y ≡ unsigned_abs wanted.y)) }
{
    if given.x() != wanted.x() {
        return false;
    }
    given.y() == wanted.y()
}

// Whether the record is of the chain at this place.
fn is_at(said: &ChainRecord<'_>, place: ChainRef) -> bool
    ensures { (k : ℕ) → IsTrue result ↔ (record_spot (record_of said.now) ≡ chain_spot (k, place)) }
{
    said.arc == place.arc && said.from == place.from
}

// Puts the points with their coordinates times the weights in the place of those that were there.
// There must be room: no memory is taken.
fn weigh_all(weighed: &mut Vec<Point>, points: &[Point], weights: Weights)
    requires on_grid { All (StaysOnGrid weights) points.now }
    requires room { length points.now ≤ vec_capacity weighed.old }
    ensures value { weighed.new.items ≡ map (weighted weights.x weights.y) points.now }
    ensures room { vec_capacity weighed.old ≤ vec_capacity weighed.new }
{
    weighed.clear();
    for p in points {
        weighed.push_reserved(weigh(weights, *p));
    }
}
