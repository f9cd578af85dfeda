//! Which way a chain runs, and past which of its vertices none can be near any more.
ghost use Rattle.std.specs.Prelude.{◌≡◌, ◌+◌, ◌<◌, ℕ, IsTrue, length};
ghost use Rattle.grid_exact.specs.Geometry.{Place};
ghost use Rattle.lane_kernels.specs.Places.{AreCoordinates, place_at};
ghost use Rattle.arc_map.specs.Chains.{chain_at, chain_places};
ghost use Rattle.error_cone.specs.Cone.{IsPast, Lets};
ghost use Rattle.error_cone.specs.Courses.{IsConeFrom, LetsNear, RunsAlong};
ghost use Rattle.shortcut_graph.specs.Weighed.{AreWeighed};

use crate::ruler::Ruler;
use error_cone::Cone;
use grid_exact::{Direction, precedes};
use lane_kernels::point_at;
use map_index::IndexedMap;

/// How the weighted vertices of a chain run: in this direction throughout.
#[derive(Clone, Copy)]
pub(crate) struct Course {
    pub(crate) direction: Direction,
}

impl Course {
    /// The course of chain number `k`, of which the ruler has the coordinates.
    pub(crate) fn of(map: &IndexedMap, k: u32, ruler: &Ruler<'_>) -> Course
        requires chain { k < length map.now.chains }
        requires weighed { AreWeighed ruler.now.weights (chain_places (chain_at map.now.chains k))
            ruler.now.xs.now ruler.now.ys.now }
        ensures { RunsAlong result.direction.frame result.direction.rising
            (place_at ruler.now.xs.now ruler.now.ys.now) (length ruler.now.xs.now) }
    {
        // The weights are above 0, as their readers say, so the weighted vertices run along as the
        // chain does.
        let _ = (ruler.weights.x(), ruler.weights.y());
        let frame = map.frame(k);
        let first = point_at(ruler.xs, ruler.ys, 0);
        let last = point_at(ruler.xs, ruler.ys, map.chain(k).len() - 1);
        let rising = precedes(frame, first, last);
        Course {
            direction: Direction { frame, rising },
        }
    }

    /// The cone of the bound from the vertex `start` that has taken the next vertex.
    pub(crate) fn cone_past_next(self, ruler: &Ruler<'_>, start: usize) -> Cone
        requires coordinates { AreCoordinates ruler.now.xs.now ruler.now.ys.now }
        requires runs { RunsAlong self.direction.frame self.direction.rising
            (place_at ruler.now.xs.now ruler.now.ys.now) (length ruler.now.xs.now) }
        requires in_lists { start + 1 < length ruler.now.xs.now }
        ensures start { IsConeFrom result (place_at ruler.now.xs.now ruler.now.ys.now)
            (length ruler.now.xs.now) ruler.now.bound start }
        ensures lets { LetsNear result (place_at ruler.now.xs.now ruler.now.ys.now)
            (length ruler.now.xs.now) ruler.now.bound start (start + 2) }
    {
        let from = point_at(ruler.xs, ruler.ys, start);
        let mut cone = Cone::start(self.direction, from, ruler.bound);
        cone.take(point_at(ruler.xs, ruler.ys, start + 1));
        cone
    }
}

/// Takes the vertex `end` into the cone, and answers whether that closes it: then no later vertex
/// is near.
pub(crate) fn closes(cone: &mut Cone, ruler: &Ruler<'_>, end: usize) -> bool
    requires coordinates { AreCoordinates ruler.now.xs.now ruler.now.ys.now }
    requires in_lists { end < length ruler.now.xs.now }
    ensures start { (i : ℕ) → IsConeFrom cone.old (place_at ruler.now.xs.now ruler.now.ys.now)
        (length ruler.now.xs.now) ruler.now.bound i
        → IsConeFrom cone.new (place_at ruler.now.xs.now ruler.now.ys.now) (length ruler.now.xs.now)
        ruler.now.bound i }
    ensures lets { (i : ℕ) → i < end
        → IsConeFrom cone.old (place_at ruler.now.xs.now ruler.now.ys.now) (length ruler.now.xs.now)
        ruler.now.bound i
        → LetsNear cone.old (place_at ruler.now.xs.now ruler.now.ys.now) (length ruler.now.xs.now)
        ruler.now.bound i end
        → LetsNear cone.new (place_at ruler.now.xs.now ruler.now.ys.now) (length ruler.now.xs.now)
        ruler.now.bound i (end + 1) }
    ensures closed { IsTrue result → (v : Place) → IsPast cone.new v → ¬ (Lets cone.new v) }
{
    cone.take(point_at(ruler.xs, ruler.ys, end));
    cone.is_closed()
}
