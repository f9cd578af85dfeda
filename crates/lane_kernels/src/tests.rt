//! Worked tests of lists of places.
use crate::lanes::four_in_band;
use crate::side::{Hand, first_off_side};
use crate::within::first_beyond;
use grid_exact::{Bound, Point};
use std::process::Abort;

fn at(rt: &impl Abort, (x, y): (i64, i64)) -> Point {
    Point::new(x, y).expect(rt, "a point of the grid")
}

fn bound(rt: &impl Abort, e: u64) -> Bound {
    Bound::new(e).expect(rt, "a bound")
}

#[test]
fn tells_distances(rt: HostRuntime) {
    let along = [0, 1, 2, 3, 4, 5, 6, 7, 8];
    let level = [0, 0, 0, 0, 0, 0, 0, 0, 2];
    let (a, b) = (at(&rt, (0, 0)), at(&rt, (8, 0)));
    assert_eq!(rt; first_beyond(a, b, &along, &level, bound(&rt, 1)), Some(8));
    assert_eq!(rt; first_beyond(a, b, &along, &level, bound(&rt, 2)), None);
    assert_eq!(rt; first_beyond(a, b, &[], &[], bound(&rt, 0)), None);
    assert_eq!(rt;
        first_beyond(a, at(&rt, (2, 1)), &[1], &[10], bound(&rt, 9)),
        Some(0)
    );
    assert_eq!(rt;
        first_beyond(a, at(&rt, (2, 1)), &[1], &[10], bound(&rt, 10)),
        None
    );
}

#[test]
fn tells_bands(rt: HostRuntime) {
    let (a, b) = (at(&rt, (0, 0)), at(&rt, (8, 0)));
    assert!(rt; four_in_band(a, b, 16, &[1, 2, 6, 7], &[2, -2, 0, 1], 0));
    assert!(rt; !four_in_band(a, b, 15, &[1, 2, 6, 7], &[2, -2, 0, 1], 0));
    assert!(rt; !four_in_band(a, b, 15, &[1, 2, 6, 7], &[1, -2, 0, 1], 0));
    assert!(rt; !four_in_band(a, b, 16, &[0, 2, 6, 7], &[0, 0, 0, 0], 0));
    assert!(rt; !four_in_band(a, b, 16, &[1, 2, 6, 8], &[0, 0, 0, 0], 0));
}

#[test]
fn tells_sides(rt: HostRuntime) {
    let along = [1, 2, 3, 4, 5, 6, 7, 8, 9];
    let above = [1, 1, 1, 1, 1, 1, 1, 1, 0];
    let (a, b) = (at(&rt, (0, 0)), at(&rt, (8, 0)));
    assert_eq!(rt; first_off_side(a, b, &along, &above, Hand::Left), Some(8));
    assert_eq!(rt; first_off_side(a, b, &along, &above, Hand::Right), Some(0));
    assert_eq!(rt; first_off_side(a, b, &[], &[], Hand::Left), None);
}
