//! Which edges are crossed from a point.
ghost use Rattle.std.specs.Prelude.{◌≡◌, ◌<◌, ◌≤◌, if◌then◌else◌, All, length};
ghost use Rattle.grid_exact.specs.Walks.{count_edges};
ghost use Rattle.grid_exact.specs.Crossing.{is_crossed};
ghost use Rattle.arc_map.specs.Arcs.{is_inside, is_inside_of, is_list_crossed_oddly};
ghost use Rattle.face_parity.specs.Crossings.{crossings};

use arc_map::ArcMap;
use grid_exact::{Point, exactly_one, is_edge_crossed, is_walk_crossed_oddly};

/// How many edges of the list of positions are crossed from p: by a ray that goes straight up from
/// p, tilted so little that it meets no position.
pub fn crossed(list: &[Point], p: Point) -> u64
    ensures { result ≡ crossings p list.now }
{
    if list.is_empty() {
        0
    } else {
        crossed_after(list[0], &list[1..], p)
    }
}

// How many edges of the walk from the first position along the rest are crossed from p.
fn crossed_after(first: Point, rest: &[Point], p: Point) -> u64
    ensures { result ≡ count_edges (is_crossed p) first rest.now }
{
    let mut before = first;
    let mut count = 0;
    for q in rest {
        count += crossing(p, before, *q);
        before = *q;
    }
    count
}

// 1 where the edge from a to b is crossed from p, else 0.
fn crossing(p: Point, a: Point, b: Point) -> u64
    ensures value { result ≡ (if is_crossed p a b then 1 else 0) }
    ensures few { result ≤ 1 }
{
    if is_edge_crossed(p, a, b) { 1 } else { 0 }
}

/// Whether p lies in the polygon: the edges of the arcs that its rings name, each as often as it is
/// named, are crossed from p an odd number of times in sum.
pub fn inside(topology: &ArcMap, polygon: u32, p: Point) -> bool
    requires { polygon < length topology.now.polygons }
    ensures { result ≡ is_inside p topology.now polygon }
{
    is_inside_rings(topology, topology.polygon(polygon), p)
}

// Whether the arcs with these numbers, each as often as it is named, have an odd number of edges
// that are crossed from p in sum.
fn is_inside_rings(topology: &ArcMap, arcs: &[u32], p: Point) -> bool
    requires { All (λ arc. arc < length topology.now.arcs) arcs.now }
    ensures { result ≡ is_inside_of p topology.now.arcs arcs.now }
{
    let mut is_in = false;
    for arc in arcs {
        is_in = exactly_one(is_in, is_crossed_oddly(topology.arc(*arc), p));
    }
    is_in
}

// Whether an odd number of edges of the list of positions are crossed from p.
pub(crate) fn is_crossed_oddly(list: &[Point], p: Point) -> bool
    ensures { result ≡ is_list_crossed_oddly p list.now }
{
    if list.is_empty() {
        false
    } else {
        is_walk_crossed_oddly(list[0], &list[1..], p)
    }
}
