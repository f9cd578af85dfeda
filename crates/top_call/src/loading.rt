//! The map of a text, arranged or with its held arcs.
ghost use Rattle.std.specs.Prelude.{◌≡◌, ◌≤◌, ◌^◌, ◌⊎◌, pos, None, All, IfOk, IfErr, MatchOption};
ghost use Rattle.std.specs.Prelude.{length};
ghost use Rattle.grid_exact.specs.Geometry.{Place};
ghost use Rattle.grid_exact.specs.Weights.{StaysOnGrid, IsFirstOff};
ghost use Rattle.topo_reader.specs.Ends.{HasEvenEnds};
ghost use Rattle.topo_reader.specs.TopologyIs.{topology_read, LiesIn};
ghost use Rattle.top_call.specs.Maps.{HasTopology, IsLoaded, IsRefused, IsUnarranged};
ghost use Rattle.top_call.specs.Maps.{AreHeldBeside, IsTextRefusal, IsFirstOffIn, scales_of, ones};
ghost use Rattle.top_call.specs.Maps.{topology_in};
ghost use Rattle.top_call.specs.Endings.{IsMapStatus};

use crate::forms::Options;
use crate::status::Status;
use arc_map::ArcMap;
use arrangement_check::Partly;
use grid_exact::{Point, Weights};
use json_scan::scan;
use plane_sweep::{check_map, hold_map};
use std::alloc::Global;
use topo_reader::{Span, Topology, read};

/// The map of a text with its held arcs, beside which it is arranged, and where the value of `arcs`
/// stands.
#[derive(Drop)]
pub struct Loaded {
    pub partly: Partly,
    pub arcs_at: Span,
}

// The topology that a text is.
fn topology_in(alloc: Global, text: &[u8]) -> Result<Topology, Status>
    requires { length text.now ≤ 2 ^ 26 }
    ensures read { IfOk result (λ topology. HasTopology text.now (topology_read topology)) }
    ensures span { IfOk result (λ topology. LiesIn text.now topology.arcs_at) }
    ensures even { IfOk result
        (λ topology. All (HasEvenEnds topology.map.arcs) topology.map.polygons) }
    ensures refused { IfErr result (λ s. (s ≡ Status.NoMemory) ⊎ IsTextRefusal text.now s) }
{
    let scanned = scan(alloc, text)?;
    Ok(read(alloc, &scanned)?)
}

/// The weights of the axes, 1 and 1 where the words name none.
pub fn weights_of(options: &Options) -> Weights
    ensures { result ≡ scales_of options.now.weights }
{
    match options.weights {
        Some(weights) => weights,
        None => Weights::new(1, 1).unwrap(),
    }
}

// The place in the arc of the first position that the weights take off the grid. Weights of 1 take
// none off.
fn first_off_in(weights: Weights, arc: &[Point]) -> Option<u32>
    requires { length arc.now ≤ 2 ^ 20 }
    ensures value { MatchOption result (All (StaysOnGrid weights) arc.now)
        (IsFirstOff weights arc.now) }
    ensures ones { weights ≡ ones → result ≡ None }
{
    match weights.first_off(arc) {
        Some(at) => {
            let p = arc[at as usize];
            let (_x, _y) = (p.x(), p.y());
            Some(at)
        }
        None => None,
    }
}

// The least arc of which the weights take a position off the grid, and its first such position.
// Weights of 1 take none off.
fn first_off(weights: Weights, map: &ArcMap) -> Option<(u32, u32)>
    ensures value { MatchOption result (All (All (StaysOnGrid weights)) map.now.arcs)
        (λ off. IsFirstOffIn weights map.now.arcs off.0 off.1) }
    ensures ones { weights ≡ ones → result ≡ None }
{
    for arc in 0..map.arc_count() {
        if let Some(at) = first_off_in(weights, map.arc(arc)) {
            return Some((arc, at));
        }
    }
    None
}

// The map as an arranged one with no arc held, or with its held arcs where arcs are to be held.
fn arranged(alloc: Global, hold_arcs: bool, map: ArcMap) -> Result<Partly, Status>
    ensures same { IfOk result (λ partly. partly.map ≡ map) }
    ensures beside { IfOk result (λ partly. AreHeldBeside hold_arcs map partly.held) }
    ensures refused { IfErr result (λ s. (s ≡ Status.NoMemory) ⊎ IsUnarranged hold_arcs map s) }
{
    if hold_arcs {
        return Ok(hold_map(alloc, map)?);
    }
    let arranged = check_map(alloc, map)?;
    Ok(Partly::whole(alloc, arranged))
}

/// The map of a text, whose positions the weights leave on the grid, arranged or with its held
/// arcs.
///
/// A text that is no JSON text, no topology within the profile and its limits, whose positions the
/// weights take off the grid, or whose map is not arranged where no arcs are to be held, is refused
/// with its status, in this order. `NoMemory` is want of memory.
pub fn load(alloc: Global, options: &Options, text: &[u8]) -> Result<Loaded, Status>
    requires { length text.now ≤ 2 ^ 26 }
    ensures loaded { IfOk result (λ loaded. IsLoaded options.now text.now (topology_in loaded)
        loaded.partly.held) }
    ensures span { IfOk result (λ loaded. LiesIn text.now loaded.arcs_at) }
    // In each polygon each position is an even number of times an end of an arc.
    ensures even { IfOk result (λ loaded.
        All (HasEvenEnds loaded.partly.map.arcs) loaded.partly.map.polygons) }
    ensures refused { IfErr result (IsRefused options.now text.now) }
    ensures status { IfErr result IsMapStatus }
{
    let topology = topology_in(alloc, text)?;
    if let Some(off) = first_off(weights_of(options), &topology.map) {
        return Err(Status::OffWeights(off.0, off.1));
    }
    let Topology { map, arcs_at } = topology;
    let partly = arranged(alloc, options.hold, map)?;
    Ok(Loaded { partly, arcs_at })
}
