//! Maps of two edges and a feature point: arranged, and not.

use crate::parts::point;
use crate::two_edges;
use arc_map::EdgeRef;
use arrangement_check::{CheckError, check, hold};
use std::test::*;

#[test]
fn maps_of_two_edges(rt: HostRuntime) -> Result<(), Fail> {
    let first = EdgeRef { arc: 0, at: 0 };
    let second = EdgeRef { arc: 1, at: 0 };
    for (c, d, town, want, held) in [
        // beside one another, with one end in common
        ((4, 0), (4, 4), (2, 1), None, 0),
        // crossing arcs, and an end at the other's middle
        (
            (2, -2),
            (2, 2),
            (9, 9),
            Some(CheckError::Edges(first, second)),
            2,
        ),
        (
            (2, 0),
            (2, 4),
            (9, 9),
            Some(CheckError::Edges(first, second)),
            2,
        ),
        // a town on an arc
        (
            (4, 0),
            (4, 4),
            (4, 1),
            Some(CheckError::PointOnArc(0, second)),
            1,
        ),
    ] {
        let (a, b) = (point(0, 0)?, point(4, 0)?);
        let (c, d) = (point(c.0, c.1)?, point(d.0, d.1)?);
        let town = point(town.0, town.1)?;
        assert!(rt; a != b);
        assert!(rt; c != d);
        let map = two_edges(rt.alloc(), a, b, c, d, town)?;
        match (check(rt.alloc(), map), want) {
            (Ok(arranged), None) => assert_eq!(rt; arranged.into_map().arc_count(), 2),
            (Err(e), Some(want)) => assert!(rt; same(&e, &want)),
            _ => Err("another answer")?,
        }
        let map = two_edges(rt.alloc(), a, b, c, d, town)?;
        match hold(rt.alloc(), map) {
            Ok(partly) => assert_eq!(rt; partly.held().count(), held),
            Err(_) => Err("memory")?,
        }
    }
    Ok(())
}

// Whether both errors name the same edges.
pub fn same(a: &CheckError, b: &CheckError) -> bool {
    match (a, b) {
        (CheckError::Edges(e, f), CheckError::Edges(g, h)) => e == g && f == h,
        (CheckError::PointOnArc(p, e), CheckError::PointOnArc(q, f)) => p == q && e == f,
        _ => false,
    }
}
