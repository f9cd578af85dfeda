//! A map of two chains and a feature point, before and after a chain is thinned.
ghost use Rattle.std.specs.Prelude.{◌≡◌, ◌<◌, ◌<ℤ◌, ℕ, IsTrue, IfOk, length};
ghost use Rattle.arc_map.specs.Chains.{chain_at};
ghost use Rattle.map_index.specs.MapIndex.{IsAsRead};

use crate::parts::{numbers, point};
use arc_map::{ArcMap, ChainRef, NoMemory};
use grid_exact::{Frame, Point};
use map_index::IndexedMap;
use std::alloc::Global;
use std::test::*;

// Whether q is to the right of p, and above it.
fn rises(p: Point, q: Point) -> bool
    ensures across { IsTrue result → p.x <ℤ q.x }
    ensures up { IsTrue result → p.y <ℤ q.y }
{
    p.x() < q.x() && p.y() < q.y()
}

// The index of a map of two rising chains, from a over b to c and from d to e, and a feature point.
fn two_chains(
    alloc: Global,
    a: Point,
    b: Point,
    c: Point,
    d: Point,
    e: Point,
    town: Point,
) -> Result<IndexedMap, NoMemory>
    requires across { (a.x <ℤ b.x) × (b.x <ℤ c.x) × (d.x <ℤ e.x) }
    requires up { (a.y <ℤ b.y) × (b.y <ℤ c.y) × (d.y <ℤ e.y) }
    ensures chains { IfOk result (λ map. length map.chains ≡ 2) }
    ensures long { IfOk result (λ map. length (chain_at map.chains 0).rest ≡ 2) }
    ensures read { IfOk result (λ map. (k : ℕ) → k < length map.chains → IsAsRead map k) }
{
    let mut arcs = Vec::with_capacity(alloc, 2)?;
    arcs.push_reserved([a, b, c].to_vec(alloc)?);
    arcs.push_reserved([d, e].to_vec(alloc)?);
    let points = [town].to_vec(alloc)?;
    let map = ArcMap::new(arcs, points, Vec::new(alloc), false);
    let first = ChainRef {
        arc: 0,
        from: 0,
        to: 2,
        frame: Frame::Plain,
    };
    let second = ChainRef {
        arc: 1,
        from: 0,
        to: 1,
        frame: Frame::Plain,
    };
    let chains = [first, second].to_vec(alloc)?;
    IndexedMap::build(alloc, map, chains)
}

// A chain over (0, 0), (2, 1) and (4, 2), another from (3, 0) to (5, 3), and the feature point (2,
// 3).
fn worked(alloc: Global) -> Result<IndexedMap, Fail>
    ensures chains { IfOk result (λ map. length map.chains ≡ 2) }
    ensures long { IfOk result (λ map. length (chain_at map.chains 0).rest ≡ 2) }
    ensures read { IfOk result (λ map. (k : ℕ) → k < length map.chains → IsAsRead map k) }
{
    let (a, b, c) = (point(0, 0)?, point(2, 1)?, point(4, 2)?);
    let (d, e) = (point(3, 0)?, point(5, 3)?);
    let town = point(2, 3)?;
    if !rises(a, b) {
        return Err(Fail::from("a, b"));
    }
    if !rises(b, c) {
        return Err(Fail::from("b, c"));
    }
    if !rises(d, e) {
        return Err(Fail::from("d, e"));
    }
    match two_chains(alloc, a, b, c, d, e, town) {
        Ok(map) => Ok(map),
        Err(NoMemory) => Err(Fail::from("memory")),
    }
}

// The numbers of the items between (2, 0) and (4, 3).
fn found(alloc: Global, map: &IndexedMap) -> Result<Vec<u32>, Fail> {
    numbers(alloc, map.in_box(point(2, 0)?, point(4, 3)?))
}

#[test]
fn a_vertex_that_is_thinned_away_is_not_found(rt: HostRuntime) -> Result<(), Fail> {
    let mut map = worked(rt.alloc())?;
    assert_eq!(rt; map.item_count(), 6);
    assert!(rt; map.frame(0) == Frame::Plain);
    assert!(rt; map.chains_at(point(3, 0)?) == [1].as_slice());
    assert!(rt; found(rt.alloc(), &map)?.as_slice() == [0, 2, 3, 4].as_slice());
    map.thin(0, &[0, 2]);
    assert!(rt; found(rt.alloc(), &map)?.as_slice() == [0, 3, 4].as_slice());
    assert_eq!(rt; map.item_count(), 6);
    assert_eq!(rt; map.work().chain(0).len(), 2);
    Ok(())
}
