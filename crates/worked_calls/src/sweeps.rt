//! The same by a sweep over the edges.

use crate::arrangement::same;
use crate::parts::point;
use crate::two_edges;
use arc_map::EdgeRef;
use arrangement_check::CheckError;
use plane_sweep::{Swept, check_by_sweep, sweep};
use std::test::*;

#[test]
fn maps_of_two_edges_are_swept(rt: HostRuntime) -> Result<(), Fail> {
    let first = EdgeRef { arc: 0, at: 0 };
    let second = EdgeRef { arc: 1, at: 0 };
    for (c, d, town, want) in [
        // beside one another, with one end in common, and from one point
        ((4, 0), (4, 4), (2, 1), None),
        ((-4, 1), (0, 0), (2, 1), None),
        ((0, 0), (0, 4), (2, 1), None),
        // crossing arcs, and an end at the other's middle
        (
            (2, -2),
            (2, 2),
            (9, 9),
            Some(CheckError::Edges(first, second)),
        ),
        (
            (2, 0),
            (2, 4),
            (9, 9),
            Some(CheckError::Edges(first, second)),
        ),
        // over one another
        (
            (0, 0),
            (2, 0),
            (9, 9),
            Some(CheckError::Edges(first, second)),
        ),
        // a town on an arc
        (
            (4, 0),
            (4, 4),
            (4, 1),
            Some(CheckError::PointOnArc(0, second)),
        ),
    ] {
        let (a, b) = (point(0, 0)?, point(4, 0)?);
        let (c, d) = (point(c.0, c.1)?, point(d.0, d.1)?);
        let town = point(town.0, town.1)?;
        assert!(rt; a != b);
        assert!(rt; c != d);
        let map = two_edges(rt.alloc(), a, b, c, d, town)?;
        match (sweep(rt.alloc(), &map), &want) {
            (Ok(Swept::Meets(e, f)), Some(CheckError::Edges(_, _))) => {
                assert_eq!(rt; (e, f), (first, second));
            }
            (Ok(Swept::Clean), Some(CheckError::PointOnArc(_, _)) | None) => {}
            _ => Err("another answer")?,
        }
        match (check_by_sweep(rt.alloc(), map), want) {
            (Ok(arranged), None) => assert_eq!(rt; arranged.into_map().arc_count(), 2),
            (Err(e), Some(want)) => assert!(rt; same(&e, &want)),
            _ => Err("another answer")?,
        }
    }
    Ok(())
}
