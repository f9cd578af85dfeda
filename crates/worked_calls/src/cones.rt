//! Worked cones.

use crate::parts::point;
use error_cone::Cone;
use grid_exact::{Bound, Direction, Frame, Point};
use std::test::Fail;

// Whether the cone from the first point is closed by the other two.
fn closes(direction: Direction, bound: u64, from: Point, p: Point, q: Point) -> Result<bool, Fail> {
    let bound = Bound::new(bound).ok_or("a bound")?;
    let mut cone = Cone::start(direction, from, bound);
    cone.take(p);
    cone.take(q);
    Ok(cone.is_closed())
}

#[test]
fn two_points_close_a_cone(rt: HostRuntime) -> Result<(), Fail> {
    let (start, p, q) = (point(0, 0)?, point(1, 1)?, point(2, 0)?);
    let east = Direction {
        frame: Frame::Plain,
        rising: true,
    };
    let west = Direction {
        frame: Frame::Plain,
        rising: false,
    };
    assert!(rt; closes(east, 0, start, p, q)?);
    assert!(rt; !closes(east, 2, start, p, q)?);
    assert!(rt; !closes(east, 0, start, p, point(2, 2)?)?);
    assert!(rt; closes(west, 0, q, p, start)?);
    Ok(())
}

#[test]
fn one_line_meets_both_squares(rt: HostRuntime) -> Result<(), Fail> {
    let (start, p) = (point(0, 0)?, point(0, 10)?);
    let north = Direction {
        frame: Frame::Turned,
        rising: true,
    };
    assert!(rt; !closes(north, 1, start, p, point(4, 26)?)?);
    assert!(rt; closes(north, 1, start, p, point(5, 26)?)?);
    Ok(())
}
