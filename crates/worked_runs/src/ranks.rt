//! The text of the ranks of maps, worked out by hand.

use crate::parts::scanned;
use arrangement_check::check;
use grid_exact::Bound;
use pyramid::rank_all;
use std::alloc::Global;
use std::test::*;
use topo_reader::read;

/// The text of the ranks of a short topology by the levels of these bounds, if it has them.
fn ranked(alloc: Global, text: &str, units: &[u64]) -> Option<Vec<u8>> {
    let mut bounds = Vec::new(alloc);
    for e in units {
        bounds.push(Bound::new(*e)?).ok()?;
    }
    if bounds.len() > 16 {
        return None;
    }
    let scan = scanned(alloc, text)?;
    let Ok(topology) = read(alloc, &scan) else {
        return None;
    };
    let Ok(arranged) = check(alloc, topology.map) else {
        return None;
    };
    let Ok(ranks) = rank_all(alloc, arranged, bounds.as_slice()) else {
        return None;
    };
    ranks.text(alloc, bounds.as_slice()).ok()
}

#[test]
fn two_levels_of_one_arc(rt: HostRuntime) {
    let text = r#"{"type":"Topology","objects":{},"arcs":[[[0,0],[1,1],[2,0],[3,4],[4,0]]]}"#;
    let Some(ranks) = ranked(rt.alloc(), text, &[1, 5]) else {
        panic!(&rt; "it has ranks");
    };
    assert_eq!(&rt;
        ranks.as_slice(),
        b"{\"bounds\":[1,5],\"ranks\":[[2,0,1,1,2]]}".as_slice()
    );
}

#[test]
fn two_levels_of_two_provinces(rt: HostRuntime) {
    let text =
        r#"{"type":"Topology","objects":{"a":{"type":"Polygon","arcs":[[0,1]]},"b":{"type":"Polygon","arcs":[[2,-1]]},"towns":{"type":"MultiPoint","coordinates":[[2,4],[7,4]]}},"arcs":[[[4,0],[5,2],[3,4],[5,6],[4,8]],[[4,8],[0,8],[0,0],[4,0]],[[4,0],[8,0],[8,8],[4,8]]]}"#;
    let Some(ranks) = ranked(rt.alloc(), text, &[1, 5]) else {
        panic!(&rt; "it has ranks");
    };
    assert_eq!(&rt;
        ranks.as_slice(),
        b"{\"bounds\":[1,5],\"ranks\":[[2,0,0,0,2],[2,2,2,2],[2,2,2,2]]}".as_slice()
    );
}

#[test]
fn an_arc_without_an_edge_has_the_last_rank(rt: HostRuntime) {
    let text =
        r#"{"type":"Topology","objects":{},"arcs":[[[9,9],[9,9]],[[0,0],[1,1],[2,0],[3,0]]]}"#;
    let Some(ranks) = ranked(rt.alloc(), text, &[1]) else {
        panic!(&rt; "it has ranks");
    };
    assert_eq!(&rt;
        ranks.as_slice(),
        b"{\"bounds\":[1],\"ranks\":[[1],[1,0,0,1]]}".as_slice()
    );
}
