//! Arcs in one of their directions.
ghost use Rattle.std.specs.Prelude.{◌≡◌, ◌<◌, length};
ghost use Rattle.arc_map.specs.Ends.{is_same};
ghost use Rattle.dissolve.specs.Border.{first_of, last_of, end_of};
ghost use Rattle.dissolve.specs.Walk.{reference};

use arc_map::ArcMap;
use grid_exact::Point;

// An arc in one of its directions.
#[derive(Clone, Copy)]
pub(crate) struct Step {
    pub arc: u32,
    pub forwards: bool,
}

impl Step {
    // The arc's reference, as TopoJSON numbers it: arc `k` backwards is `-1 - k`.
    pub fn number(self) -> i64
        ensures { result ≡ reference self }
    {
        let arc = i64::from(self.arc);
        if self.forwards { arc } else { -1 - arc }
    }

    // The arc's last position in this direction.
    pub fn end(self, map: &ArcMap) -> Point
        requires { self.arc < length map.now.arcs }
        ensures { result ≡ end_of map.now (reference self) }
    {
        if self.forwards {
            last_position(map, self.arc)
        } else {
            first_position(map, self.arc)
        }
    }
}

// Whether the arc begins at the position.
pub(crate) fn begins_at(map: &ArcMap, arc: u32, position: Point) -> bool
    requires { arc < length map.now.arcs }
    ensures { result ≡ is_same (first_of map.now arc) position }
{
    first_position(map, arc) == position
}

// The arc's first position.
pub(crate) fn first_position(map: &ArcMap, arc: u32) -> Point
    requires { arc < length map.now.arcs }
    ensures { result ≡ first_of map.now arc }
{
    map.arc(arc)[0]
}

// The arc's last position.
pub(crate) fn last_position(map: &ArcMap, arc: u32) -> Point
    requires { arc < length map.now.arcs }
    ensures { result ≡ last_of map.now arc }
{
    let positions = map.arc(arc);
    positions[positions.len() - 1]
}
