//! Worked examples of edges that clash and edges that do not.

use crate::parts::point;
use segment_tests::{
    Joint, Neighbours, apart_edges_are_ordered, clash, ordered_edges_are_apart, same_ends,
    segments_meet_by_signs,
};
use std::test::*;

// Both ends of both edges are ends of their arcs.
fn all_ends() -> Joint {
    Joint {
        a_end: true,
        b_end: true,
        c_end: true,
        d_end: true,
        neighbours: Neighbours::Apart,
    }
}

// No end of either edge is an end of its arc.
fn no_ends(neighbours: Neighbours) -> Joint {
    Joint {
        a_end: false,
        b_end: false,
        c_end: false,
        d_end: false,
        neighbours,
    }
}

#[test]
fn edges_clash(rt: HostRuntime) -> Result<(), Fail> {
    let mut inner_start = all_ends();
    inner_start.c_end = false;
    for (a, b, c, d, joint, want) in [
        // a crossing
        ((0, 0), (4, 4), (0, 4), (4, 0), all_ends(), true),
        // one shared end
        ((0, 0), (4, 0), (4, 0), (8, 0), all_ends(), false),
        ((0, 0), (4, 0), (4, 0), (8, 0), inner_start, true),
        // one edge twice
        ((0, 0), (4, 0), (0, 0), (4, 0), all_ends(), true),
        // neighbours: back over the first edge, and off to the side
        (
            (0, 0),
            (4, 0),
            (4, 0),
            (2, 0),
            no_ends(Neighbours::Joined),
            true,
        ),
        (
            (0, 0),
            (4, 0),
            (4, 0),
            (4, 4),
            no_ends(Neighbours::Joined),
            false,
        ),
        (
            (0, 0),
            (4, 0),
            (0, 4),
            (0, 0),
            no_ends(Neighbours::JoinedBack),
            false,
        ),
        (
            (0, 0),
            (4, 0),
            (0, 4),
            (0, 0),
            no_ends(Neighbours::Joined),
            true,
        ),
        // an end at the other edge's middle, past its end, and beside it
        ((0, 0), (4, 0), (2, 0), (2, 4), all_ends(), true),
        ((0, 0), (4, 0), (6, 0), (6, 4), all_ends(), false),
        ((0, 0), (4, 0), (2, 1), (2, 4), all_ends(), false),
    ] {
        let (a, b) = (point(a.0, a.1)?, point(b.0, b.1)?);
        let (c, d) = (point(c.0, c.1)?, point(d.0, d.1)?);
        assert!(rt; a != b);
        assert!(rt; c != d);
        assert_eq!(rt; clash(a, b, c, d, joint), want, "{joint:?}");
    }
    Ok(())
}

#[test]
fn edges_have_the_same_ends(rt: HostRuntime) -> Result<(), Fail> {
    let (a, b, c) = (point(0, 0)?, point(4, 0)?, point(0, 4)?);
    assert!(rt; same_ends(a, b, a, b));
    assert!(rt; same_ends(a, b, b, a));
    assert!(rt; !same_ends(a, b, a, c));
    segments_meet_by_signs();
    apart_edges_are_ordered();
    ordered_edges_are_apart();
    Ok(())
}
