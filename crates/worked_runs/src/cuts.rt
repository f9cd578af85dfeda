//! The chains of worked arcs.
ghost use Rattle.std.specs.Prelude.{◌≤◌, ◌^◌, IsTrue, length};
ghost use Rattle.arc_map.specs.Map.{IsArc};

use arc_map::{ArcMap, ChainRef};
use grid_exact::{Frame, Point};
use monotone_split::split;
use std::alloc::{AllocError, Global};
use std::test::*;

// Whether there is a position, and no two neighbours are equal.
fn is_arc(positions: &[Point]) -> bool
    ensures { IsTrue result → IsArc positions.now }
{
    if positions.is_empty() {
        return false;
    }
    for k in 0..positions.len() - 1 {
        if positions[k] == positions[k + 1] {
            return false;
        }
    }
    true
}

// The map of one arc, and nothing else.
fn map_of(alloc: Global, arc: Vec<Point>) -> Result<ArcMap, AllocError>
    requires arc { IsArc arc.items }
    requires short { length arc.items ≤ 2 ^ 20 }
{
    let mut arcs = Vec::new(alloc);
    arcs.push(arc)?;
    Ok(ArcMap::new(arcs, Vec::new(alloc), Vec::new(alloc), false))
}

// The chains of the arc with these positions.
fn chains_of(rt: &HostRuntime, positions: &[(i64, i64)]) -> Result<Vec<ChainRef>, Fail> {
    let mut arc = Vec::new(rt.alloc());
    for (x, y) in positions {
        arc.push(Point::new(*x, *y).ok_or("a point of the grid")?)?;
    }
    let map = if is_arc(&arc) && arc.len() <= 1 << 20 {
        map_of(rt.alloc(), arc)?
    } else {
        Err("an arc")?
    };
    match split(rt.alloc(), &map) {
        Ok(chains) => Ok(chains),
        Err(_) => Err("memory")?,
    }
}

#[test]
fn a_triangle_has_two_chains(rt: HostRuntime) -> Result<(), Fail> {
    let chains = chains_of(&rt, &[(0, 0), (4, 0), (2, 3), (0, 0)])?;
    let want = [
        ChainRef {
            arc: 0,
            from: 0,
            to: 2,
            frame: Frame::Turned,
        },
        ChainRef {
            arc: 0,
            from: 2,
            to: 3,
            frame: Frame::Plain,
        },
    ];
    assert!(rt; chains.as_slice() == want.as_slice());
    Ok(())
}

#[test]
fn a_long_level_arc_is_cut_at_the_limit(rt: HostRuntime) -> Result<(), Fail> {
    let mut positions = Vec::new(rt.alloc());
    for x in 0..1100 {
        positions.push((x, 0))?;
    }
    let chains = chains_of(&rt, &positions)?;
    let want = [
        ChainRef {
            arc: 0,
            from: 0,
            to: 1023,
            frame: Frame::Plain,
        },
        ChainRef {
            arc: 0,
            from: 1023,
            to: 1099,
            frame: Frame::Plain,
        },
    ];
    assert!(rt; chains.as_slice() == want.as_slice());
    Ok(())
}
