//! The text of a border, worked out by hand.

use crate::parts::scanned;
use dissolve::border;
use std::alloc::Global;
use std::test::*;
use topo_reader::read;

/// The text of the border of these polygons of a short topology, if it has them.
fn dissolved(alloc: Global, text: &str, chosen: &[u32]) -> Option<Vec<u8>> {
    let scan = scanned(alloc, text)?;
    let Ok(topology) = read(alloc, &scan) else {
        return None;
    };
    let map = &topology.map;
    if chosen.iter().any(|k| *k >= map.polygon_count()) {
        return None;
    }
    let Ok(rings) = border(alloc, map, chosen) else {
        return None;
    };
    rings.text(alloc).ok()
}

#[test]
fn two_provinces_lose_their_common_arc(rt: HostRuntime) {
    let text =
        r#"{"type":"Topology","objects":{"a":{"type":"Polygon","arcs":[[0,1]]},"b":{"type":"Polygon","arcs":[[2,-1]]}},"arcs":[[[4,0],[5,2],[3,4],[4,8]],[[4,8],[0,8],[0,0],[4,0]],[[4,0],[8,0],[8,8],[4,8]]]}"#;
    let Some(border) = dissolved(rt.alloc(), text, &[0, 1]) else {
        panic!(&rt; "it has a border");
    };
    assert_eq!(&rt;
        border.as_slice(),
        b"{\"type\":\"MultiLineString\",\"arcs\":[[1,2]]}".as_slice()
    );
}

#[test]
fn arcs_that_end_where_a_ring_is_are_taken_backwards(rt: HostRuntime) {
    let text =
        r#"{"type":"Topology","objects":{"a":{"type":"Polygon","arcs":[[0,3,-2,-3]]}},"arcs":[[[0,0],[8,0]],[[0,8],[8,8]],[[0,0],[0,8]],[[8,0],[8,8]]]}"#;
    let Some(border) = dissolved(rt.alloc(), text, &[0]) else {
        panic!(&rt; "it has a border");
    };
    assert_eq!(&rt;
        border.as_slice(),
        b"{\"type\":\"MultiLineString\",\"arcs\":[[0,3,-2,-3]]}".as_slice()
    );
}

#[test]
fn closed_arcs_are_rings_of_their_own(rt: HostRuntime) {
    let text =
        r#"{"type":"Topology","objects":{"a":{"type":"Polygon","arcs":[[1],[0]]}},"arcs":[[[1,1],[2,1],[1,2],[1,1]],[[0,0],[9,0],[0,9],[0,0]],[[5,5],[5,5]]]}"#;
    let Some(border) = dissolved(rt.alloc(), text, &[0]) else {
        panic!(&rt; "it has a border");
    };
    assert_eq!(&rt;
        border.as_slice(),
        b"{\"type\":\"MultiLineString\",\"arcs\":[[0],[1]]}".as_slice()
    );
}
