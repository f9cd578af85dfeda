//! An arc from (0, 0) over (2, 2) to (4, 0) that is cut short, beside one other edge and a feature
//! point.
ghost use Rattle.std.specs.Prelude.{◌<◌, ℕ, IfOk, length};
ghost use Rattle.arc_map.specs.Chains.{IsClearIn};
ghost use Rattle.shortcut_graph.specs.Weighed.{IsColumn};

use crate::bump_beside_edge;
use crate::parts::point;
use arc_map::ArcMap;
use arrangement_check::check;
use grid_exact::{Bound, Point, Weights};
use layer_paths::Layering;
use map_index::IndexedMap;
use monotone_split::split;
use shortcut_graph::{Ruler, lay};
use side_wedge::Beside;
use std::alloc::{AllocError, Global};
use std::process::Abort;
use std::test::*;

// The map with its chains, if it is arranged.
fn indexed(alloc: Global, map: ArcMap) -> Result<IndexedMap, Fail>
    ensures { IfOk result (λ map. (k : ℕ) → IsClearIn map.chains map.read.points k) }
{
    let Ok(arranged) = check(alloc, map) else {
        return Err(Fail::from("not arranged"));
    };
    let map = arranged.into_map();
    let Ok(refs) = split(alloc, &map) else {
        return Err(Fail::from("memory"));
    };
    match IndexedMap::build(alloc, map, refs) {
        Ok(indexed) => Ok(indexed),
        Err(_) => Err(Fail::from("memory")),
    }
}

// The coordinates across.
fn across(alloc: Global, places: &[Point]) -> Result<Vec<i64>, AllocError>
    ensures { IfOk result (λ xs. IsColumn (λ p. p.x) places.now xs.items (length places.now)) }
{
    let mut xs = Vec::new(alloc);
    for place in places {
        xs.push(place.x())?;
    }
    Ok(xs)
}

// The coordinates up.
fn up(alloc: Global, places: &[Point]) -> Result<Vec<i64>, AllocError>
    ensures { IfOk result (λ ys. IsColumn (λ p. p.y) places.now ys.items (length places.now)) }
{
    let mut ys = Vec::new(alloc);
    for place in places {
        ys.push(place.y())?;
    }
    Ok(ys)
}

// Whether one step leads over the three vertices of the second chain at bound 5.
fn is_allowed(alloc: Global, map: &IndexedMap) -> Result<bool, Fail>
    requires chain { 1 < length map.now.chains }
    requires clear { IsClearIn map.now.chains map.now.read.points 1 }
{
    let Ok(mut beside) = Beside::with_room(alloc, map.item_count()) else {
        return Err(Fail::from("memory"));
    };
    let Ok(mut layering) = Layering::new(alloc) else {
        return Err(Fail::from("memory"));
    };
    let Some(weights) = Weights::new(1, 1) else {
        return Err(Fail::from("weights"));
    };
    let bound = Bound::new(5).ok_or("a bound")?;
    beside.load(map, 1, weights, bound);
    let places = map.chain(1);
    let xs = across(alloc, places)?;
    let ys = up(alloc, places)?;
    let ruler = Ruler {
        xs: &xs,
        ys: &ys,
        bound,
        weights,
    };
    lay(&mut layering, map, 1, &beside, &ruler);
    Ok(matches!(layering.layers(), [1, ..]))
}

// Whether the arc may be cut short, beside an edge of this height and a feature point at (2, town).
fn may_be_cut(rt: &impl Abort, alloc: Global, height: i64, town: i64) -> Result<bool, Fail> {
    let edge = (point(0, height)?, point(4, height)?);
    let arc = (point(0, 0)?, point(2, 2)?, point(4, 0)?);
    assert!(rt; edge.0 != edge.1);
    assert!(rt; arc.0 != arc.1);
    assert!(rt; arc.1 != arc.2);
    let map = bump_beside_edge(alloc, edge, arc, point(2, town)?)?;
    let map = indexed(alloc, map)?;
    assert_eq!(rt; map.work().chain_count(), 2);
    is_allowed(alloc, &map)
}

#[test]
fn what_stands_against_a_pair(rt: HostRuntime) -> Result<(), Fail> {
    // a town below the arc, one above it, and an edge between its ends
    for (height, town, want) in [(-9, 1, false), (-9, 3, true), (0, 3, false)] {
        assert_eq!(rt; may_be_cut(&rt, rt.alloc(), height, town)?, want);
    }
    Ok(())
}
