//! Worked texts.

use crate::parts::scanned;
use geo_reader::read_geo;
use geo_text::built_text;
use std::alloc::Global;
use std::test::*;
use topo_build::build;

/// The text that is built of a short text, if that is GeoJSON.
fn text_of(alloc: Global, text: &str) -> Option<Vec<u8>> {
    let scan = scanned(alloc, text)?;
    let Ok(geo) = read_geo(alloc, &scan) else {
        return None;
    };
    let Ok(built) = build(alloc, &geo) else {
        return None;
    };
    built_text(alloc, &scan, &geo, &built).ok()
}

#[test]
fn two_squares_with_a_common_side(rt: HostRuntime) {
    let text =
        r#"{"type":"FeatureCollection","features":[{"type":"Feature","properties":{"n":1},"geometry":{"type":"Polygon","coordinates":[[[0,0],[2,0],[2,2],[0,2],[0,0]]]}},{"type":"Feature","properties":null,"geometry":{"type":"Polygon","coordinates":[[[2,0],[4,0],[4,2],[2,2],[2,0]]]}}]}"#;
    let want =
        r#"{"type":"Topology","objects":{"features":{"type":"GeometryCollection","geometries":[{"type":"Polygon","properties":{"n":1},"arcs":[[0,1]]},{"type":"Polygon","arcs":[[2,-1]]}]}},"arcs":[[[2,0],[2,2]],[[2,2],[0,2],[0,0],[2,0]],[[2,0],[4,0],[4,2],[2,2]]]}"#;
    let Some(built) = text_of(rt.alloc(), text) else {
        panic!(&rt; "it is GeoJSON");
    };
    assert_eq!(&rt; built.as_slice(), want.as_bytes());
}

#[test]
fn one_triangle(rt: HostRuntime) {
    let text = r#"{"type":"Polygon","coordinates":[[[0,0],[4,0],[2,3],[0,0]]]}"#;
    let want =
        r#"{"type":"Topology","objects":{"features":{"type":"GeometryCollection","geometries":[{"type":"Polygon","arcs":[[0]]}]}},"arcs":[[[0,0],[4,0],[2,3],[0,0]]]}"#;
    let Some(built) = text_of(rt.alloc(), text) else {
        panic!(&rt; "it is GeoJSON");
    };
    assert_eq!(&rt; built.as_slice(), want.as_bytes());
}

#[test]
fn ring_of_two_positions(rt: HostRuntime) {
    let text = r#"{"type":"Polygon","coordinates":[[[0,0],[4,0],[0,0],[0,0]]]}"#;
    let want =
        r#"{"type":"Topology","objects":{"features":{"type":"GeometryCollection","geometries":[{"type":"Polygon","arcs":[[0,-1]]}]}},"arcs":[[[0,0],[4,0]]]}"#;
    let Some(built) = text_of(rt.alloc(), text) else {
        panic!(&rt; "it is GeoJSON");
    };
    assert_eq!(&rt; built.as_slice(), want.as_bytes());
}

#[test]
fn triangle_walked_twice(rt: HostRuntime) {
    let text = r#"{"type":"Polygon","coordinates":[[[0,0],[4,0],[2,3],[0,0],[4,0],[2,3],[0,0]]]}"#;
    let want =
        r#"{"type":"Topology","objects":{"features":{"type":"GeometryCollection","geometries":[{"type":"Polygon","arcs":[[0,1,2,0,1,2]]}]}},"arcs":[[[0,0],[4,0]],[[4,0],[2,3]],[[2,3],[0,0]]]}"#;
    let Some(built) = text_of(rt.alloc(), text) else {
        panic!(&rt; "it is GeoJSON");
    };
    assert_eq!(&rt; built.as_slice(), want.as_bytes());
}

#[test]
fn features_of_each_kind(rt: HostRuntime) {
    let text =
        r#"{"type":"FeatureCollection","features":[{"type":"Feature","id":7,"properties":{"n":[1, 2]},"geometry":{"type":"MultiPolygon","coordinates":[[[[0,0],[2,0],[2,2],[0,0]]],[]]}},{"id":"a","type":"Feature","properties":null,"geometry":null},{"type":"Feature","geometry":{"type":"GeometryCollection","geometries":[{"type":"Po\u0069nt","coordinates":[1,2.0]},{"type":"MultiPoint","coordinates":[ [3,4], [5,6] ]}]}}]}"#;
    let want =
        r#"{"type":"Topology","objects":{"features":{"type":"GeometryCollection","geometries":[{"type":"MultiPolygon","id":7,"properties":{"n":[1, 2]},"arcs":[[[0]],[]]},{"type":null,"id":"a"},{"type":"GeometryCollection","geometries":[{"type":"Point","coordinates":[1,2]},{"type":"MultiPoint","coordinates":[[3,4],[5,6]]}]}]}},"arcs":[[[0,0],[2,0],[2,2],[0,0]]]}"#;
    let Some(built) = text_of(rt.alloc(), text) else {
        panic!(&rt; "it is GeoJSON");
    };
    assert_eq!(&rt; built.as_slice(), want.as_bytes());
}
