//! The chains of a map: each arc is cut into runs that go strictly one way in one of the two orders
//! of points.
ghost use Rattle.std.specs.Prelude.{◌+◌, ◌<◌, ◌≤◌, ◌^◌, IfOk, OnOk, length};
ghost use Rattle.arc_map.specs.Map.{IsArc, IsMap};
ghost use Rattle.arc_map.specs.Work.{AreChainsIn};
ghost use Rattle.monotone_split.specs.Cut.{IsFurthestRun, IsNextChainRef, AddsChainsOf};
ghost use Rattle.monotone_split.specs.Cut.{AreChainRefs};

use arc_map::{ArcMap, ChainRef, NoMemory};
use grid_exact::{Frame, MAX_CHAIN_EDGES, Point, order};
use std::alloc::{AllocError, Global};

// How many edges from the first position on run strictly one way in the order of the frame, at most
// as many as a chain may have.
fn furthest_run(frame: Frame, positions: &[Point]) -> usize
    requires edge { 1 < length positions.now }
    requires arc { IsArc positions.now }
    ensures { IsFurthestRun frame positions.now result }
{
    let way = order(frame, positions[0], positions[1]);
    let limit = (positions.len() - 1).min(MAX_CHAIN_EDGES);
    for run in 1..limit {
        if order(frame, positions[run], positions[run + 1]) != way {
            return run;
        }
    }
    limit
}

// The chain that is cut off arc number `number`, which has these positions, from the position
// `from` on.
fn next_chain(number: u32, arc: &[Point], from: u32) -> ChainRef
    requires edge { from + 1 < length arc.now }
    requires arc { IsArc arc.now }
    requires short { length arc.now ≤ 2 ^ 20 }
    ensures { IsNextChainRef number arc.now from result }
{
    let rest = &arc[from as usize..];
    let plain = furthest_run(Frame::Plain, rest);
    let turned = furthest_run(Frame::Turned, rest);
    if turned > plain {
        ChainRef {
            arc: number,
            from,
            to: from + turned as u32,
            frame: Frame::Turned,
        }
    } else {
        ChainRef {
            arc: number,
            from,
            to: from + plain as u32,
            frame: Frame::Plain,
        }
    }
}

// Adds the chains of arc number `number` at the end.
fn cut_arc(map: &ArcMap, number: u32, chains: &mut Vec<ChainRef>) -> Result<(), AllocError>
    requires arc { number < length map.now.arcs }
    ensures { OnOk result (AddsChainsOf map.now number chains.old.items chains.new.items) }
{
    let arc = map.arc(number);
    let mut from = 0;
    while (from as usize) + 1 < arc.len() {
        let chain = next_chain(number, arc, from);
        chains.push(chain)?;
        from = chain.to;
    }
    Ok(())
}

/// The chains of the map, in order of arc, then of position. Each arc is cut from its first
/// position on, each time where the furthest run ends that goes strictly one way by x, then y, or
/// by y, then x, and has at most 1,023 edges. The further of the two runs gives the frame, at a tie
/// the plain one. An arc of one position has no chain. The only error is want of memory.
pub fn split(alloc: Global, map: &ArcMap) -> Result<Vec<ChainRef>, NoMemory>
    ensures chains { IfOk result (λ refs. AreChainsIn map.now refs.items) }
    ensures bounds { IfOk result (λ refs. AreChainRefs map.now refs.items) }
{
    let mut chains = Vec::new(alloc);
    for number in 0..map.arc_count() {
        cut_arc(map, number, &mut chains)?;
    }
    Ok(chains)
}
