//! Whether edges of a map clash, and whether feature points lie on them, by their numbers.
ghost use Rattle.std.specs.Prelude.{◌≡◌, ◌↔◌, ◌<◌, ◌+◌, ◌==◌, ◌&&◌, ◌^◌, IsTrue, length};
ghost use Rattle.arc_map.specs.Arranged.{IsMapEdge, EdgesClash, PointIsOn};
ghost use Rattle.segment_tests.specs.Flags.{is_joined, is_joined_back};
ghost use Rattle.arrangement_check.specs.Ends.{is_end_of};

use arc_map::{ArcMap, EdgeRef};
use grid_exact::on_segment;
use segment_tests::{Joint, Neighbours, clash};

/// Whether two edges of the map, by their numbers, clash: they have a point in common that is no
/// lawful junction.
pub fn edges_clash(map: &ArcMap, e: EdgeRef, f: EdgeRef) -> bool
    requires first { IsMapEdge map.now e }
    requires second { IsMapEdge map.now f }
    ensures { IsTrue result ↔ EdgesClash map.now e f }
{
    let first = map.arc(e.arc);
    let second = map.arc(f.arc);
    let (at, to) = (e.at as usize, f.at as usize);
    let joint = Joint {
        a_end: is_end(e.at, first.len()),
        b_end: is_end(e.at + 1, first.len()),
        c_end: is_end(f.at, second.len()),
        d_end: is_end(f.at + 1, second.len()),
        neighbours: neighbours(e, f),
    };
    clash(first[at], first[at + 1], second[to], second[to + 1], joint)
}

// Whether the position is the first or the last of an arc of so many positions.
fn is_end(at: u32, count: usize) -> bool
    requires { at < count }
    ensures { result ≡ is_end_of at count }
{
    at == 0 || at as usize + 1 == count
}

// Which position of one arc two edges share as neighbours.
fn neighbours(e: EdgeRef, f: EdgeRef) -> Neighbours
    requires first { e.at < 2 ^ 31 }
    requires second { f.at < 2 ^ 31 }
    ensures joined { is_joined result ≡ ((e.arc == f.arc) && (e.at + 1 == f.at)) }
    ensures joined_back { is_joined_back result ≡ ((e.arc == f.arc) && (f.at + 1 == e.at)) }
{
    if e.arc != f.arc {
        Neighbours::Apart
    } else if e.at + 1 == f.at {
        Neighbours::Joined
    } else if f.at + 1 == e.at {
        Neighbours::JoinedBack
    } else {
        Neighbours::Apart
    }
}

/// Whether the feature point with this number, from 0, lies on the edge of the map.
pub fn town_is_on(map: &ArcMap, town: u32, e: EdgeRef) -> bool
    requires point { town < length map.now.points }
    requires edge { IsMapEdge map.now e }
    ensures { IsTrue result ↔ PointIsOn map.now town e }
{
    let arc = map.arc(e.arc);
    let at = e.at as usize;
    on_segment(arc[at], arc[at + 1], map.point(town))
}
