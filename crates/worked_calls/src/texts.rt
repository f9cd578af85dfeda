//! Texts of arcs, of made maps, and lines of points.

use crate::parts::point;
use arc_map::ArcMap;
use face_parity::{FaceScratch, crossed};
use grid_exact::Point;
use map_gen::make;
use std::test::Fail;
use topo_reader::Span;
use topo_writer::{arcs_text, splice};

#[test]
fn no_arcs_are_an_empty_list(rt: HostRuntime) -> Result<(), Fail> {
    let alloc = rt.alloc();
    let topology = ArcMap::new(Vec::new(alloc), Vec::new(alloc), Vec::new(alloc), false);
    let arcs = arcs_text(alloc, &topology)?;
    assert_eq!(rt; arcs.as_slice(), b"[]".as_slice());
    let text = splice(
        alloc,
        b"{\"arcs\":[[[0,0]]]}",
        Span { start: 8, end: 17 },
        arcs.as_slice(),
    )?;
    assert_eq!(rt; text.as_slice(), b"{\"arcs\":[]}".as_slice());
    Ok(())
}

#[test]
fn one_position_is_written_twice(rt: HostRuntime) -> Result<(), Fail> {
    let alloc = rt.alloc();
    let arcs = vec![in alloc; vec![in alloc; Point::origin()]?]?;
    let topology = ArcMap::new(arcs, Vec::new(alloc), Vec::new(alloc), true);
    let text = arcs_text(alloc, &topology)?;
    assert_eq!(rt; text.as_slice(), b"[[[0,0],[0,0]]]".as_slice());
    Ok(())
}

#[test]
fn one_cell_of_seed_seven(rt: HostRuntime) -> Result<(), Fail> {
    let text = make(rt.alloc(), 1, 1, 7)?;
    let head =
        b"{\"type\":\"Topology\",\"objects\":{\"cells\":{\"type\":\"GeometryCollection\",\"geometries\":[{\"type\":\"Polygon\",\"arcs\":[[0,3,-2,-3]]}]},\"towns\":{\"type\":\"MultiPoint\",\"coordinates\":[[32,-6],[32,72]]}},\"arcs\":[[[0,0],[8,7],[16,7],[24,-5],[32,-7],[40,4],[48,0],[56,6],[64,0]],";
    let tail =
        b"[[0,64],[8,69],[16,66],[24,64],[32,71],[40,68],[48,68],[56,64],[64,64]],[[0,0],[-1,8],[2,16],[6,24],[-7,32],[0,40],[1,48],[-6,56],[0,64]],[[64,0],[70,8],[71,16],[58,24],[64,32],[62,40],[66,48],[62,56],[64,64]]]}";
    assert!(rt; text.as_slice().starts_with(head));
    assert!(rt; text.as_slice().ends_with(tail));
    assert_eq!(rt; text.len(), head.len() + tail.len());
    Ok(())
}

#[test]
fn a_roof_is_crossed_from_below(rt: HostRuntime) -> Result<(), Fail> {
    let roof = [point(0, 0)?, point(2, 2)?, point(4, 0)?];
    assert_eq!(rt; crossed(&roof, point(2, 1)?), 1);
    assert_eq!(rt; crossed(&roof, point(2, 3)?), 0);
    Ok(())
}

#[test]
fn a_point_outside_lies_in_none(rt: HostRuntime) -> Result<(), Fail> {
    let alloc = rt.alloc();
    let points = vec![in alloc; Point::origin()]?;
    let topology = ArcMap::new(Vec::new(alloc), points, Vec::new(alloc), false);
    let mut scratch = FaceScratch::new(alloc, &topology)?;
    scratch.write_line(&topology, 0);
    assert_eq!(rt; scratch.line(), b"point 0 0 0 in none\n".as_slice());
    Ok(())
}
