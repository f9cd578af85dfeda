//! Worked texts: the map and the place of `arcs`, and a fault of each kind with its place.

use arc_map::ArcMap;
use grid_exact::Point;
use json_scan::scan;
use std::alloc::Global;
use std::test::*;
use topo_reader::{OffKind, ReadFault, ShapeKind, Span, Topology, What, read};

/// Two provinces with towns, names, a `bbox` and a fractional transform.
const PROVINCES: &str = r#"{"type":"Topology","bbox":[-180,-90,-179.712,-89.856],
"transform":{"scale":[0.036,0.018],"translate":[-180,-90]},
"objects":{"provinces":{"type":"GeometryCollection","geometries":[
{"type":"Polygon","properties":{"name":"West"},"arcs":[[0,1]]},
{"type":"Polygon","properties":{"name":"East"},"arcs":[[2,-1]]}]},
"towns":{"type":"MultiPoint","coordinates":[[2,4],[7,4]]}},
"arcs":[[[4,0],[1,2],[-2,2],[2,2],[-1,2]],[[4,8],[-4,0],[0,-8],[4,0]],
[[4,0],[4,0],[0,8],[-4,0]]]}"#;

/// What stands before and behind the value of `arcs`.
const ARCS: [&str; 2] = [r#"{"type":"Topology","objects":{},"arcs":"#, "}"];

/// The same in a coded map.
const CODED_ARCS: [&str; 2] = [
    r#"{"type":"Topology","transform":{"scale":[0.5,0.5],"translate":[0,0]},"objects":{},"arcs":"#,
    "}",
];

/// What stands before and behind the only geometry.
const GEOMETRY: [&str; 2] = [
    r#"{"type":"Topology","objects":{"a":"#,
    r#"},"arcs":[[[0,0],[3,0]]]}"#,
];

/// What stands before and behind the value of `transform`.
const TRANSFORM: [&str; 2] = [
    r#"{"type":"Topology","transform":"#,
    r#","objects":{},"arcs":[]}"#,
];

/// The topology of a short text, or its fault, if the text is JSON.
fn reading(alloc: Global, text: &[u8]) -> Option<Result<Topology, ReadFault>> {
    if text.len() > 4096 {
        return None;
    }
    match scan(alloc, text) {
        Ok(scan) => Some(read(alloc, &scan)),
        Err(_) => None,
    }
}

/// The first fault of a part of a text, between what stands before and behind it, if it has one.
fn fault_of(alloc: Global, around: [&str; 2], part: &str) -> Option<ReadFault> {
    let mut text = Vec::new(alloc);
    text.extend_from_slice(around[0].as_bytes()).ok()?;
    text.extend_from_slice(part.as_bytes()).ok()?;
    text.extend_from_slice(around[1].as_bytes()).ok()?;
    match reading(alloc, &text) {
        Some(Err(fault)) => Some(fault),
        Some(Ok(_)) | None => None,
    }
}

fn are_at(points: &[Point], want: &[(i64, i64)]) -> bool {
    points.len() == want.len()
        && points
            .iter()
            .zip(want)
            .all(|(point, (x, y))| point.x() == *x && point.y() == *y)
}

fn is_arc(map: &ArcMap, k: u32, want: &[(i64, i64)]) -> bool {
    k < map.arc_count() && are_at(map.arc(k), want)
}

fn is_polygon(map: &ArcMap, k: u32, want: &[u32]) -> bool {
    k < map.polygon_count() && map.polygon(k) == want
}

fn is_point(map: &ArcMap, k: u32, x: i64, y: i64) -> bool {
    k < map.point_count() && map.point(k).x() == x && map.point(k).y() == y
}

#[test]
fn reads_two_provinces(rt: HostRuntime) {
    let Some(Ok(topology)) = reading(rt.alloc(), PROVINCES.as_bytes()) else {
        panic!(&rt; "it is a topology");
    };
    let map = &topology.map;
    assert!(&rt; map.coded());
    assert_eq!(&rt; map.arc_count(), 3);
    assert!(&rt; is_arc(map, 0, &[(4, 0), (5, 2), (3, 4), (5, 6), (4, 8)]));
    assert!(&rt; is_arc(map, 1, &[(4, 8), (0, 8), (0, 0), (4, 0)]));
    assert!(&rt; is_arc(map, 2, &[(4, 0), (8, 0), (8, 8), (4, 8)]));
    assert_eq!(&rt; map.point_count(), 2);
    assert!(&rt; is_point(map, 0, 2, 4));
    assert!(&rt; is_point(map, 1, 7, 4));
    assert_eq!(&rt; map.polygon_count(), 2);
    assert!(&rt; is_polygon(map, 0, &[0, 1]));
    assert!(&rt; is_polygon(map, 1, &[2, 0]));
    assert_eq!(&rt;
        topology.arcs_at,
        Span {
            start: 380,
            end: 471
        }
    );
}

#[test]
fn names_the_first_fault_of_a_topology(rt: HostRuntime) {
    for (part, kind, at) in [
        (" []", ShapeKind::NotObject, 1),
        (r#"{"objects":{},"arcs":[]}"#, ShapeKind::Missing, 0),
        (r#"{"type":"Topology","objects":{}}"#, ShapeKind::Missing, 0),
        (r#"{"type":"Topology","arcs":[]}"#, ShapeKind::Missing, 0),
        (
            r#"{"type":"Topology","objects":{},"type":"Topology","arcs":[]}"#,
            ShapeKind::Twice,
            32,
        ),
        (
            r#"{"type":"topology","objects":{},"arcs":[]}"#,
            ShapeKind::WrongType,
            8,
        ),
        (
            r#"{"type":"Topology","objects":[],"arcs":[]}"#,
            ShapeKind::WrongType,
            29,
        ),
    ] {
        let want = Some(ReadFault::Shape { kind, at });
        assert_eq!(&rt; fault_of(rt.alloc(), ["", ""], part), want, "of {part}");
    }
}

#[test]
fn names_the_first_fault_of_a_transform(rt: HostRuntime) {
    for (part, kind, at) in [
        (r#"null,"\u0074ransform":null"#, ShapeKind::Twice, 36),
        (r#"{"scale":[1,1]}"#, ShapeKind::BadTransform, 31),
        (
            r#"{"scale":[1,1],"scale":[1,1],"translate":[0,0]}"#,
            ShapeKind::BadTransform,
            31,
        ),
        (
            r#"{"scale":[1,1],"translate":[0,0,0]}"#,
            ShapeKind::BadTransform,
            31,
        ),
    ] {
        let want = Some(ReadFault::Shape { kind, at });
        assert_eq!(&rt; fault_of(rt.alloc(), TRANSFORM, part), want, "of {part}");
    }
}

#[test]
fn names_the_first_fault_of_arcs(rt: HostRuntime) {
    for (part, kind, at) in [
        ("{}", ShapeKind::WrongType, 39),
        ("[7]", ShapeKind::WrongType, 40),
        ("[[7,[0,0]]]", ShapeKind::WrongType, 41),
        ("[[[0,0],[0]]]", ShapeKind::WrongType, 47),
        (r#"[[[0,"0"],[0,0]]]"#, ShapeKind::WrongType, 44),
        ("[[[0,0]]]", ShapeKind::ShortArc, 40),
    ] {
        let want = Some(ReadFault::Shape { kind, at });
        assert_eq!(&rt; fault_of(rt.alloc(), ARCS, part), want, "of {part}");
    }
}

#[test]
fn names_the_first_fault_of_geometries(rt: HostRuntime) {
    for (part, kind, at) in [
        ("[]", ShapeKind::WrongType, 34),
        (r#"{"type":"Point"}"#, ShapeKind::Missing, 34),
        (r#"{"type":"Feature"}"#, ShapeKind::UnknownGeometry, 42),
        (
            r#"{"type":"LineString","arcs":[null]}"#,
            ShapeKind::WrongType,
            63,
        ),
        (
            r#"{"type":"LineString","arcs":[1]}"#,
            ShapeKind::BadArcIndex,
            63,
        ),
        (
            r#"{"type":"LineString","arcs":[-2]}"#,
            ShapeKind::BadArcIndex,
            63,
        ),
        (
            r#"{"type":"LineString","arcs":[0.5]}"#,
            ShapeKind::BadArcIndex,
            63,
        ),
        (
            r#"{"type":"LineString","arcs":[0,0]}"#,
            ShapeKind::Unjoined,
            65,
        ),
        (
            r#"{"type":"Polygon","arcs":[[0]]}"#,
            ShapeKind::OpenRing,
            60,
        ),
        (
            r#"{"type":"MultiPolygon","arcs":[7]}"#,
            ShapeKind::WrongType,
            65,
        ),
        (
            r#"{"type":"GeometryCollection","geometries":[{"type":null},{"type":7}]}"#,
            ShapeKind::UnknownGeometry,
            99,
        ),
    ] {
        let want = Some(ReadFault::Shape { kind, at });
        assert_eq!(&rt; fault_of(rt.alloc(), GEOMETRY, part), want, "of {part}");
    }
}

#[test]
fn names_the_first_number_off(rt: HostRuntime) {
    for (around, part, kind, at) in [
        (ARCS, "[[[0,0],[1.5,0]]]", OffKind::NotWhole, 48),
        (ARCS, "[[[0,0],[536870913,0]]]", OffKind::OffGrid, 48),
        (ARCS, "[[[0,0],[0,-1099511627777]]]", OffKind::OffGrid, 50),
        (CODED_ARCS, "[[[536870912,0],[1,0]]]", OffKind::OffGrid, 106),
        (
            GEOMETRY,
            r#"{"type":"MultiPoint","coordinates":[[1,2],[1,2,3]]}"#,
            OffKind::Extra,
            81,
        ),
    ] {
        let want = Some(ReadFault::Off { kind, at });
        assert_eq!(&rt; fault_of(rt.alloc(), around, part), want, "of {part}");
    }
}

#[test]
fn reads_leniently(rt: HostRuntime) {
    for text in [
        r#"﻿{"type":"Topology","transform":null,"objects":{"a":{"type":null}},"arcs":[]}"#,
        r#"{"type":"Topology","objects":{},"arcs":[[[0,0],[2.0,-0]]]}"#,
        r#"{"type":"Topology","objects":{},"arcs":[[[5,5],[5,5]]]}"#,
        r#"{"type":"Topology","objects":{"a":{"type":"Polygon","arcs":[[]]}},"arcs":[]}"#,
        r#"{"type":"Topology","objects":{"a":{"type":"MultiLineString","arcs":[[]]}},"arcs":[]}"#,
    ] {
        let read = matches!(reading(rt.alloc(), text.as_bytes()), Some(Ok(_)));
        assert!(&rt; read, "of {text}");
    }
}
