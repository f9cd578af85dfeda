//! Which feature point of a map lies on an edge.
ghost use Rattle.std.specs.Prelude.{◌↔◌, ◌<◌, IfNone, IfSome, IsTrue, length};
ghost use Rattle.arc_map.specs.Arranged.{HasNoClash, IsEarlier, IsLeastPoint, IsMapEdge, PointIsOn};
ghost use Rattle.arc_map.specs.Map.{Map};
ghost use Rattle.sweep_index.specs.EdgeSlabs.{AreSlabsOf};
ghost use Rattle.sweep_index.specs.EdgeWalk.{edges_left};
ghost use Rattle.sweep_index.specs.Slabs.{AreEdgesAt};
ghost use Rattle.arrangement_check.specs.Least.{HasNoTown, IsNew};
ghost use Rattle.plane_sweep.specs.Answers.{IsLeastOn, IsOnNone};

use arc_map::{ArcMap, EdgeRef};
use arrangement_check::town_is_on;
use grid_exact::Point;
use sweep_index::{EdgeSlabs, EdgeWalk};

// The least feature point that lies on an edge, with the least such edge.
pub fn least_town(map: &ArcMap, slabs: &EdgeSlabs) -> Option<(u32, EdgeRef)>
    requires slabs { AreSlabsOf map.now slabs.now }
    requires no_clash { HasNoClash map.now }
    ensures least { IfSome result (λ town. IsLeastPoint map.now town.0 town.1) }
    ensures none { IfNone result (HasNoTown map.now) }
{
    for town in 0..map.point_count() {
        if let Some(e) = least_edge_on(map, slabs, town) {
            return Some((town, e));
        }
    }
    None
}

// The least edge that the feature point lies on.
fn least_edge_on(map: &ArcMap, slabs: &EdgeSlabs, town: u32) -> Option<EdgeRef>
    requires point { town < length map.now.points }
    requires slabs { AreSlabsOf map.now slabs.now }
    ensures least { IfSome result (IsLeastOn map.now town) }
    ensures none { IfNone result (IsOnNone map.now town) }
{
    let mut least: Option<EdgeRef> = None;
    let mut edges = edges_over(slabs, map.point(town));
    while let Some(e) = edges.next() {
        if lies_below(map, town, e, least) {
            least = Some(e);
        }
    }
    least
}

// The edges whose closed x range holds that of the point.
fn edges_over(slabs: &EdgeSlabs, point: Point) -> EdgeWalk<'_>
    ensures { (m : Map) → AreSlabsOf m slabs.now → AreEdgesAt m point.x (edges_left result) }
{
    slabs.at_x(point.x())
}

// Whether the feature point lies on the edge, and the edge is before the other one, or there is no
// other.
fn lies_below(map: &ArcMap, town: u32, e: EdgeRef, least: Option<EdgeRef>) -> bool
    requires point { town < length map.now.points }
    requires edge { IsMapEdge map.now e }
    ensures { IsTrue result ↔ (IsNew IsEarlier e least × PointIsOn map.now town e) }
{
    is_less(e, least) && town_is_on(map, town, e)
}

// Whether the edge is before the other one, or there is no other.
fn is_less(e: EdgeRef, least: Option<EdgeRef>) -> bool
    ensures { IsTrue result ↔ IsNew IsEarlier e least }
{
    match least {
        None => true,
        Some(other) => e < other,
    }
}
