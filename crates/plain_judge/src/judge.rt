//! The verdict on a certificate by plain tests over the whole map.
ghost use Rattle.std.specs.Prelude.{◌≡◌, ◌<◌, All, IfSome, IsNone, length};
ghost use Rattle.grid_exact.specs.Weights.{StaysOnGrid};
ghost use Rattle.arc_map.specs.Chains.{chain_at, chain_places};
ghost use Rattle.arc_map.specs.Work.{thinned_work};
ghost use Rattle.cert_checker.specs.Judged.{IsAccepted, IsFault};
ghost use Rattle.cert_checker.specs.Subject.{pairs_of, record_of};
ghost use Rattle.cert_checker.specs.declared.verdicts.Verdict.TheVariants.{No};

use crate::cases::Demand;
use crate::entry::refusal;
use crate::error::CasesError;
use arc_map::{ArcList, ArcMap, ChainRecord, RunRecords, WorkMap};
use arrangement_check::hold;
use cert_checker::{Reason, Verdict};
use cert_format::Certificate;
use grid_exact::{Bound, Weights};
use monotone_split::split;
use std::alloc::{AllocError, Global};

// A chain that is judged: its number in the map, its arc and the number of its first position
// there.
#[derive(Clone, Copy)]
struct Spot {
    chain: u32,
    arc: u32,
    from: u32,
}

// The numbers of a list of arcs.
fn numbers(alloc: Global, arcs: &ArcList) -> Result<Vec<u32>, AllocError> {
    let mut list = Vec::new(alloc);
    for k in 0..arcs.count() {
        list.push(arcs.get(k))?;
    }
    Ok(list)
}

// The chains of the arcs that are not held.
fn free_spots(alloc: Global, work: &WorkMap, held: &[u32]) -> Result<Vec<Spot>, AllocError> {
    let mut spots = Vec::new(alloc);
    for chain in 0..work.chain_count() {
        let place = work.chain_ref(chain);
        if !held.contains(&place.arc) {
            spots.push(Spot {
                chain,
                arc: place.arc,
                from: place.from,
            })?;
        }
    }
    Ok(spots)
}

// Where the arcs that the certificate names first differ from the held arcs of the map, or one list
// ends; None where they are equal.
fn held_difference(said: &ArcList, held: &[u32]) -> Option<u32> {
    for k in 0..said.count() {
        match held.get(k as usize) {
            Some(arc) if *arc == said.get(k) => {}
            _ => return Some(k),
        }
    }
    if said.count() as usize == held.len() {
        None
    } else {
        Some(said.count())
    }
}

// Where the chains that the records name first differ from these.
fn chains_difference(records: &RunRecords, spots: &[Spot]) -> Option<u32> {
    for k in 0..records.count() {
        let said = records.get(k);
        match spots.get(k as usize) {
            Some(spot) if said.arc == spot.arc && said.from == spot.from => {}
            _ => return Some(k),
        }
    }
    if records.count() as usize == spots.len() {
        None
    } else {
        Some(records.count())
    }
}

/// The verdict on the certificate for the map, as `cert_checker::judge` is to give it.
pub fn verdict(
    alloc: Global,
    map: ArcMap,
    cert: &Certificate,
    demand: &Demand,
) -> Result<Verdict, CasesError> {
    let partly = hold(alloc, map)?;
    let held = numbers(alloc, partly.held())?;
    let chains = split(alloc, partly.map())?;
    let mut work = WorkMap::new(alloc, partly.into_map(), chains)?;
    let spots = free_spots(alloc, &work, &held)?;
    if cert.version != demand.version {
        return Ok(Verdict::No(Reason::Version));
    }
    if cert.bound.value() != demand.bound.value() {
        return Ok(Verdict::No(Reason::Bound));
    }
    if cert.weights.x() != demand.weights.x() || cert.weights.y() != demand.weights.y() {
        return Ok(Verdict::No(Reason::Weights));
    }
    if let Some(at) = held_difference(&cert.held, &held) {
        return Ok(Verdict::No(Reason::Held(at)));
    }
    if let Some(at) = chains_difference(&cert.records, &spots) {
        return Ok(Verdict::No(Reason::Chains(at)));
    }
    for entry in 0..cert.records.count() {
        if let Some(spot) = spots.get(entry as usize) {
            if let Some(reason) = judge_entry(&mut work, spot.chain, entry, cert, demand)? {
                return Ok(Verdict::No(reason));
            }
        }
    }
    Ok(Verdict::Yes)
}

// Why the entry is refused for chain number `k`; None where it is accepted, and then the chain is
// thinned to its kept vertices.
fn judge_entry(
    work: &mut WorkMap,
    k: u32,
    entry: u32,
    cert: &Certificate,
    demand: &Demand,
) -> Result<Option<Reason>, CasesError> {
    if k >= work.chain_count() {
        return Err(CasesError::Line);
    }
    if entry >= cert.records.count() {
        return Err(CasesError::Line);
    }
    let said = cert.records.get(entry);
    match demand.weights.first_off(work.chain(k)) {
        Some(_) => Err(CasesError::OffWeights),
        None => Ok(thinned_or_refused(work, k, entry, &said, demand.bound, demand.weights)),
    }
}

// The same of a record, for a chain that stays on the grid.
fn thinned_or_refused(
    work: &mut WorkMap,
    k: u32,
    entry: u32,
    said: &ChainRecord<'_>,
    bound: Bound,
    weights: Weights,
) -> Option<Reason>
    requires chain { k < length work.old.chains }
    requires on_grid { All (StaysOnGrid weights) (chain_places (chain_at work.old.chains k)) }
    ensures refused { IfSome result (λ reason.
        IsFault (pairs_of work.old k weights bound) (chain_at work.old.chains k) entry
        (record_of said.now) (No reason)) }
    ensures accepted { IsNone result
        → IsAccepted (pairs_of work.old k weights bound) (chain_at work.old.chains k)
        (record_of said.now) }
    ensures thinned { IsNone result → work.new ≡ thinned_work work.old k said.now.kept.now }
    ensures same { IfSome result (λ _. work.new ≡ work.old) }
{
    match refusal(work, k, bound, weights, entry, said) {
        Some(reason) => Some(reason),
        None => {
            work.thin(k, said.kept);
            None
        }
    }
}
