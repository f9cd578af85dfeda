//! Worked wedges, and what stands beside a bump.
ghost use Rattle.std.specs.Prelude.{◌<ℤ◌, [], IfOk};
ghost use Rattle.grid_exact.specs.Geometry.{IsOnSegment};
ghost use Rattle.arc_map.specs.Arcs.{IsMapArrangedBeside};
ghost use Rattle.side_wedge.specs.Lines.{IsAside};

use crate::parts::point;
use arc_map::{ArcMap, NoMemory};
use chain_side::{Side, comes_before};
use grid_exact::{Bound, Direction, Frame, Point, Weights, on_segment};
use map_index::IndexedMap;
use monotone_split::split;
use side_wedge::{Beside, Wedge};
use std::alloc::{AllocError, Global};
use std::process::Abort;
use std::test::Fail;

// Whether a wedge admits v after it has taken p on this side.
fn admits_after(
    rt: &impl Abort,
    direction: Direction,
    from: Point,
    p: Point,
    side: Side,
    v: Point,
) -> bool
    requires { IsAside side }
{
    assert!(rt; comes_before(direction, from, p));
    assert!(rt; comes_before(direction, from, v));
    let mut wedge = Wedge::start(direction, from);
    wedge.take_point(p, side);
    wedge.admits(v)
}

#[test]
fn wedges_admit_points(rt: HostRuntime) -> Result<(), Fail> {
    let (low, p) = (point(0, 0)?, point(2, 1)?);
    let east = Direction {
        frame: Frame::Plain,
        rising: true,
    };
    assert!(rt; admits_after(&rt, east, low, p, Side::Above, point(4, 0)?));
    assert!(rt; !admits_after(&rt, east, low, p, Side::Above, point(4, 2)?));
    assert!(rt; !admits_after(&rt, east, low, p, Side::Above, point(4, 3)?));
    assert!(rt; !admits_after(&rt, east, low, p, Side::Below, point(4, 0)?));
    let right = point(4, 0)?;
    let west = Direction {
        frame: Frame::Plain,
        rising: false,
    };
    assert!(rt; admits_after(&rt, west, right, p, Side::Above, point(0, 1)?));
    assert!(rt; !admits_after(&rt, west, right, p, Side::Above, point(0, 2)?));
    let q = point(1, 2)?;
    let north = Direction {
        frame: Frame::Turned,
        rising: true,
    };
    assert!(rt; admits_after(&rt, north, low, q, Side::Above, point(1, 4)?));
    assert!(rt; !admits_after(&rt, north, low, q, Side::Above, point(3, 4)?));
    Ok(())
}

// A map of one arc over three points that rises to the right, and a feature point on neither of its
// edges.
fn bump(alloc: Global, a: Point, b: Point, c: Point, town: Point) -> Result<ArcMap, AllocError>
    requires rising { (a.x <ℤ b.x) × (b.x <ℤ c.x) }
    requires off { ¬ (IsOnSegment a b town) × ¬ (IsOnSegment b c town) }
    ensures { IfOk result (IsMapArrangedBeside []) }
{
    let mut arcs = Vec::with_capacity(alloc, 1)?;
    arcs.push_reserved([a, b, c].to_vec(alloc)?);
    let points = [town].to_vec(alloc)?;
    Ok(ArcMap::new(arcs, points, Vec::new(alloc), false))
}

// Which vertices of the first chain of an arranged map are past the first, and make a consistent
// pair with it where what is skipped is within the bound.
fn first_row(
    alloc: Global,
    map: ArcMap,
    weights: Weights,
    bound: Bound,
) -> Result<Vec<bool>, NoMemory>
    requires { IsMapArrangedBeside [] map }
{
    let chains = split(alloc, &map)?;
    let map = IndexedMap::build(alloc, map, chains)?;
    let mut beside = Beside::with_room(alloc, map.item_count())?;
    if map.work().chain_count() == 0 {
        return Ok(Vec::new(alloc));
    }
    let mut row = vec![in alloc; true; map.chain(0).len()]?;
    beside.load(&map, 0, weights, bound);
    beside.consistent_from(&map, 0, 0, &mut row);
    Ok(row)
}

// Whether the bump over (0, 0), (2, 2) and (4, 0) may become one edge beside this feature point.
fn may_be_flat(rt: &impl Abort, alloc: Global, town: Point) -> Result<bool, Fail> {
    let (a, b, c) = (point(0, 0)?, point(2, 2)?, point(4, 0)?);
    assert!(rt; a.x() < b.x());
    assert!(rt; b.x() < c.x());
    assert!(rt; !on_segment(a, b, town));
    assert!(rt; !on_segment(b, c, town));
    let map = bump(alloc, a, b, c, town)?;
    let weights = Weights::new(1, 1).ok_or("weights")?;
    let bound = Bound::new(2).ok_or("a bound")?;
    let Ok(row) = first_row(alloc, map, weights, bound) else {
        return Err(Fail::from("memory"));
    };
    assert!(rt; row.len() == 3);
    assert!(rt; !row[0]);
    assert!(rt; row[1]);
    Ok(row[2])
}

#[test]
fn a_town_under_a_bump_holds_it(rt: HostRuntime) -> Result<(), Fail> {
    let alloc = rt.alloc();
    assert!(rt; !may_be_flat(&rt, alloc, point(2, 1)?)?);
    assert!(rt; !may_be_flat(&rt, alloc, point(1, 0)?)?);
    assert!(rt; may_be_flat(&rt, alloc, point(2, 3)?)?);
    assert!(rt; may_be_flat(&rt, alloc, point(2, -1)?)?);
    Ok(())
}
