//! Worked texts: what is read of one, and a fault of each kind with its place.

use crate::parts::scanned;
use geo_reader::{GeoFault, GeoKind, GeoMap, read_geo};
use grid_exact::Point;
use std::alloc::Global;
use std::test::*;
use topo_reader::OffKind;

/// Features with a polygon of two rings, one of two parts, points, and no geometry.
const FEATURES: &str = r#"{"type":"FeatureCollection","features":[
{"type":"Feature","id":7,"properties":{"n":1},"geometry":{"type":"Polygon","coordinates":
[[[0,0],[9,0],[9,9],[0,0]],[[5,2],[6,2],[6,3],[5,3],[5,2]]]}},
{"type":"Feature","properties":null,"geometry":{"type":"GeometryCollection","geometries":[
{"type":"MultiPoint","coordinates":[[1,2],[3,4.0]]},
{"type":"MultiPolygon","coordinates":[[[[1,0],[2,0],[1,1],[1,0]]],[[[3,0],[4,0],[3,1],[3,0]]]]},
{"type":"MultiPolygon","coordinates":[]}]}},
{"type":"Feature","geometry":null}]}"#;

/// What a short text holds, or its fault, if the text is JSON.
fn reading(alloc: Global, text: &str) -> Option<Result<GeoMap, GeoFault>> {
    let scan = scanned(alloc, text)?;
    Some(read_geo(alloc, &scan))
}

/// The first fault of a text, if it has one.
fn fault_of(alloc: Global, text: &str) -> Option<GeoFault> {
    match reading(alloc, text) {
        Some(Err(fault)) => Some(fault),
        Some(Ok(_)) | None => None,
    }
}

fn are_at(points: &[Point], want: &[(i64, i64)]) -> bool {
    points.len() == want.len()
        && points
            .iter()
            .zip(want)
            .all(|(point, (x, y))| point.x() == *x && point.y() == *y)
}

fn is_ring(geo: &GeoMap, r: u32, want: &[(i64, i64)]) -> bool {
    r < geo.ring_count() && are_at(geo.ring(r), want)
}

#[test]
fn reads_features(rt: HostRuntime) {
    let Some(Ok(geo)) = reading(rt.alloc(), FEATURES) else {
        panic!(&rt; "it is GeoJSON");
    };
    assert_eq!(&rt; geo.ring_count(), 4);
    assert!(&rt; is_ring(&geo, 0, &[(0, 0), (9, 0), (9, 9), (0, 0)]));
    assert!(&rt; is_ring(&geo, 1, &[(5, 2), (6, 2), (6, 3), (5, 3), (5, 2)]));
    assert!(&rt; is_ring(&geo, 2, &[(1, 0), (2, 0), (1, 1), (1, 0)]));
    assert!(&rt; is_ring(&geo, 3, &[(3, 0), (4, 0), (3, 1), (3, 0)]));
    assert!(&rt; are_at(geo.points(), &[(1, 2), (3, 4)]));
    assert!(&rt; geo.polygons() == [2, 2, 0].as_slice());
}

#[test]
fn names_the_first_fault_of_features(rt: HostRuntime) {
    for (text, kind, at) in [
        ("[]", GeoKind::NotObject, 0),
        (r#"{"type":"Feature"}"#, GeoKind::Missing, 0),
        (
            r#"{"type":"Feature","id":1,"properties":{},"\u0069d":2,"geometry":null}"#,
            GeoKind::Twice,
            41,
        ),
        (
            r#"{"type":"FeatureCollection","features":[7]}"#,
            GeoKind::WrongType,
            40,
        ),
        (
            r#"{"type":"FeatureCollection","features":[{"type":"Point","coordinates":[0,0]}]}"#,
            GeoKind::UnknownType,
            48,
        ),
        (
            r#"{"type":"Feature","id":[],"geometry":{"type":"Point","coordinates":{}}}"#,
            GeoKind::WrongType,
            67,
        ),
        (
            r#"{"type":"Feature","properties":[],"geometry":null,"id":null}"#,
            GeoKind::WrongType,
            55,
        ),
        (
            r#"{"type":"Feature","properties":[],"geometry":null}"#,
            GeoKind::WrongType,
            31,
        ),
    ] {
        let want = Some(GeoFault::Shape { kind, at });
        assert_eq!(&rt; fault_of(rt.alloc(), text), want, "of {text}");
    }
}

#[test]
fn names_the_first_fault_of_geometries(rt: HostRuntime) {
    for (text, kind, at) in [
        (
            r#"{"type":"LineString","coordinates":[[0,0],[1,1]]}"#,
            GeoKind::UnknownType,
            8,
        ),
        (
            r#"{"type":"Polygon","coordinates":[[[0,0],[4,0],7]]}"#,
            GeoKind::ShortRing,
            33,
        ),
        (
            r#"{"type":"Polygon","coordinates":[[[0,0],[4,0],[2,3],[1]]]}"#,
            GeoKind::WrongType,
            52,
        ),
        (
            r#"{"type":"Polygon","coordinates":[[[0,0],[4,0],[2,3],[1,1]]]}"#,
            GeoKind::OpenRing,
            33,
        ),
        (
            r#"{"type":"MultiPolygon","coordinates":[[[[0,0],[4,0],[2,3],[0,1]]],7]}"#,
            GeoKind::OpenRing,
            39,
        ),
        (
            r#"{"type":"GeometryCollection","geometries":[{"type":"Polygon","coordinates":[]},7]}"#,
            GeoKind::WrongType,
            79,
        ),
    ] {
        let want = Some(GeoFault::Shape { kind, at });
        assert_eq!(&rt; fault_of(rt.alloc(), text), want, "of {text}");
    }
}

#[test]
fn names_the_first_number_off(rt: HostRuntime) {
    for (text, kind, at) in [
        (
            r#"{"type":"Point","coordinates":[0,0.5]}"#,
            OffKind::NotWhole,
            33,
        ),
        (
            r#"{"type":"MultiPoint","coordinates":[[0,0],[0,0,0]]}"#,
            OffKind::Extra,
            47,
        ),
        (
            r#"{"type":"Polygon","coordinates":[[[0,0],[4,0],[2,536870913],[1,1]]]}"#,
            OffKind::OffGrid,
            49,
        ),
    ] {
        let want = Some(GeoFault::Off { kind, at });
        assert_eq!(&rt; fault_of(rt.alloc(), text), want, "of {text}");
    }
}
