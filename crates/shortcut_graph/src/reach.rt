//! How far on from a vertex another may still be near.
ghost use Rattle.std.specs.Prelude.{◌+◌, ◌<◌, length};
ghost use Rattle.lane_kernels.specs.Places.{AreCoordinates, place_at};
ghost use Rattle.error_cone.specs.Courses.{RunsAlong};
ghost use Rattle.shortcut_graph.specs.Pairs.{IsReach};

use crate::course::{Course, closes};
use crate::ruler::Ruler;

/// The last vertex that may be near from `start`, as the cone of the bound tells: where it closes,
/// no later vertex is.
pub(crate) fn reach_of(ruler: &Ruler<'_>, course: Course, start: usize) -> usize
    requires coordinates { AreCoordinates ruler.now.xs.now ruler.now.ys.now }
    requires runs { RunsAlong course.direction.frame course.direction.rising (place_at
        ruler.now.xs.now ruler.now.ys.now) (length ruler.now.xs.now) }
    requires in_lists { start + 1 < length ruler.now.xs.now }
    ensures { IsReach ruler.now.xs.now ruler.now.ys.now ruler.now.bound start result }
{
    let mut cone = course.cone_past_next(ruler, start);
    for end in start + 2..ruler.xs.len() {
        if closes(&mut cone, ruler, end) {
            return end;
        }
    }
    ruler.xs.len() - 1
}
