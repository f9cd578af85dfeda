//! Worked maps: what is kept of their chains within 5.
ghost use Rattle.std.specs.Prelude.{◌≡◌, IfOk, length};
ghost use Rattle.arc_map.specs.Map.{IsArc};

use crate::one_arc;
use crate::parts::{point, stays_on_grid};
use arc_map::ArcMap;
use arrangement_check::{Partly, check};
use chain_replace::{RunState, run_chains};
use grid_exact::{Bound, Point, Weights};
use std::alloc::{AllocError, Global};
use std::process::Abort;
use std::test::*;

// The arc from (0, 0) over this position to (4, 0).
fn bump(rt: &impl Abort, alloc: Global, top: (i64, i64)) -> Result<Vec<Point>, Fail>
    ensures arc { IfOk result (λ arc. IsArc arc.items) }
    ensures count { IfOk result (λ arc. length arc.items ≡ 3) }
{
    let (a, b, c) = (point(0, 0)?, point(top.0, top.1)?, point(4, 0)?);
    assert!(rt; a != b);
    assert!(rt; b != c);
    Ok(vec![in alloc; a, b, c]?)
}

// The map of two arcs.
fn twins(alloc: Global, first: Vec<Point>, second: Vec<Point>) -> Result<ArcMap, AllocError>
    requires first { IsArc first.items }
    requires second { IsArc second.items }
    requires first_count { length first.items ≡ 3 }
    requires second_count { length second.items ≡ 3 }
{
    let arcs = vec![in alloc; first, second]?;
    Ok(ArcMap::new(arcs, Vec::new(alloc), Vec::new(alloc), false))
}

fn arranged(alloc: Global, map: ArcMap) -> Result<Partly, Fail> {
    match check(alloc, map) {
        Ok(arranged) => Ok(Partly::whole(alloc, arranged)),
        Err(_) => Err("an arranged map")?,
    }
}

// The first of two arcs becomes the straight edge, which then stands in the way of the second.
#[test]
fn twin_chains(rt: HostRuntime) -> Result<(), Fail> {
    let alloc = rt.alloc();
    let map = twins(alloc, bump(&rt, alloc, (2, 2))?, bump(&rt, alloc, (2, -2))?)?;
    let partly = arranged(alloc, map)?;
    let bound = Bound::new(5).ok_or("a bound")?;
    let weights = Weights::new(1, 1).ok_or("weights")?;
    assert!(rt; stays_on_grid(weights, partly.map()));
    let mut run = RunState::new(alloc, partly, bound, weights)?;
    assert!(rt; run.next() < run.chain_count());
    run.replace_chain();
    assert!(rt; run.next() < run.chain_count());
    run.replace_chain();
    assert_eq!(rt; run.next(), run.chain_count());
    let records = run.finish().records;
    assert_eq!(rt; records.count(), 2);
    assert_eq!(rt; records.get(0).kept, [0, 2].as_slice());
    assert_eq!(rt; records.get(1).kept, [0, 1, 2].as_slice());
    Ok(())
}

// The feature point would change sides.
#[test]
fn town_blocks_the_shortcut(rt: HostRuntime) -> Result<(), Fail> {
    let alloc = rt.alloc();
    let (a, b, c) = (point(0, 0)?, point(2, 2)?, point(4, 0)?);
    assert!(rt; a != b);
    assert!(rt; b != c);
    let map = one_arc(alloc, a, b, c, point(2, 1)?)?;
    let partly = arranged(alloc, map)?;
    let bound = Bound::new(5).ok_or("a bound")?;
    let weights = Weights::new(1, 1).ok_or("weights")?;
    assert!(rt; stays_on_grid(weights, partly.map()));
    let records = run_chains(alloc, partly, bound, weights)?.records;
    assert_eq!(rt; records.count(), 1);
    assert_eq!(rt; records.get(0).kept, [0, 1, 2].as_slice());
    assert_eq!(rt; records.get(0).layers, [2, 1, 0].as_slice());
    Ok(())
}
