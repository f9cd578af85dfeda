//! Exact numbers and limits of the grid.

use crate::parts::point;
use grid_exact::{Bound, Point, Weights, area, length2, on_segment, threshold, within};
use std::test::*;

// The greatest coordinate.
const FAR: i64 = 536870912;

fn bound(e: u64) -> Result<Bound, Fail> {
    Ok(Bound::new(e).ok_or("a bound")?)
}

#[test]
fn exact_numbers_at_the_corners(rt: HostRuntime) -> Result<(), Fail> {
    let low = point(-FAR, -FAR)?;
    let high = point(FAR, FAR)?;
    assert_eq!(rt; area(low, point(FAR, -FAR)?, high), 1152921504606846976);
    assert_eq!(rt; length2(low, high), 2305843009213693952);
    assert_eq!(rt;
        threshold(2305843009213693952, bound(1073741824)?),
        1630477228166597776
    );
    assert_eq!(rt; threshold(5, bound(9)?), 20);
    assert_eq!(rt; threshold(0, bound(1073741824)?), 0);
    for (p, e, want) in [
        ((1, 10), 9, false),
        ((1, 10), 10, true),
        ((5, 5), 5, true),
        ((5, 6), 4, false),
    ] {
        let is_within = within(point(0, 0)?, point(2, 1)?, point(p.0, p.1)?, bound(e)?);
        assert_eq!(rt; is_within, want, "at the bound {e}");
    }
    for (p, want) in [
        ((5, 0), false),
        ((4, 0), true),
        ((3, 0), true),
        ((3, 1), false),
    ] {
        assert_eq!(rt;
            on_segment(point(0, 0)?, point(4, 0)?, point(p.0, p.1)?),
            want
        );
    }
    Ok(())
}

#[test]
fn limits(rt: HostRuntime) -> Result<(), Fail> {
    for (x, y, want) in [(FAR, -FAR, true), (FAR + 1, 0, false), (0, -FAR - 1, false)] {
        assert_eq!(rt; Point::new(x, y).is_some(), want, "at {x}, {y}");
    }
    for (e, want) in [(0, true), (1073741824, true), (1073741825, false)] {
        assert_eq!(rt; Bound::new(e).is_some(), want, "at {e}");
    }
    for (wx, wy, want) in [
        (1, 65536, true),
        (0, 1, false),
        (1, 0, false),
        (65537, 1, false),
        (1, 65537, false),
    ] {
        assert_eq!(rt; Weights::new(wx, wy).is_some(), want, "at {wx}, {wy}");
    }
    let weights = Weights::new(2, 3).ok_or("weights")?;
    assert!(rt; weights.apply(point(10, -10)?) == Point::new(20, -30));
    let list = [
        point(1, 1)?,
        point(FAR / 2, 0)?,
        point(0, FAR / 2)?,
        point(FAR, 0)?,
    ];
    assert_eq!(rt; weights.first_off(&list), Some(2));
    assert_eq!(rt; weights.first_off(&list[..2]), None);
    Ok(())
}
