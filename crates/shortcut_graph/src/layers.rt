//! The layers of a chain's vertices, and the next vertex of each.
ghost use Rattle.std.specs.Prelude.{◌≡◌, ◌+◌, ◌<◌, ◌≤◌, length};
ghost use Rattle.arc_map.specs.Chains.{chain_at, chain_places, IsClearIn, IsWithinBound};
ghost use Rattle.arc_map.specs.Paths.{IsAllowedPair};
ghost use Rattle.layer_paths.specs.Lay.{IsLayered};
ghost use Rattle.layer_paths.specs.Steps.{IsFirstStep};
ghost use Rattle.lane_kernels.specs.Places.{AreCoordinates, place_at};
ghost use Rattle.error_cone.specs.Courses.{RunsAlong};
ghost use Rattle.side_wedge.specs.Flanks.{HoldsReach, IsBeside};
ghost use Rattle.shortcut_graph.specs.Weighed.{AreWeighed};
ghost use Rattle.shortcut_graph.specs.Pairs.{AllowedBy, AreFindings, IsReach, IsReady};

use crate::corridor::direction_back;
use crate::course::Course;
use crate::hints::Hints;
use crate::pairs::{Findings, allows};
use crate::reach::reach_of;
use crate::ruler::Ruler;
use layer_paths::Layering;
use map_index::IndexedMap;
use side_wedge::Beside;

// After so many refusals the cone of the start tells how far on a vertex may be near. Most starts
// have their step sooner.
const PATIENCE: u32 = 4;

/// Lays the vertices of chain number `k`, from the last to the first, each with the least number of
/// allowed steps to the last and with the least vertex that is one step nearer. `beside` is what
/// stands beside this chain, loaded with the ruler's weights and bound, and the ruler has the
/// chain's coordinates.
pub fn lay(layering: &mut Layering, map: &IndexedMap, k: u32, beside: &Beside, ruler: &Ruler<'_>)
    requires chain { k < length map.now.chains }
    requires clear { IsClearIn map.now.chains map.now.read.points k }
    requires beside { IsBeside map.now.chains map.now.read.points k beside.now }
    requires reach { HoldsReach map.now.chains map.now.read.points k ruler.now.weights
        ruler.now.bound beside.now }
    requires weighed { AreWeighed ruler.now.weights (chain_places (chain_at map.now.chains k))
        ruler.now.xs.now ruler.now.ys.now }
    ensures layers { IsLayered (IsAllowedPair (IsWithinBound ruler.now.weights.x ruler.now.weights.y
        ruler.now.bound) map.now.chains map.now.read.points k) (length (chain_at map.now.chains
        k).rest) layering.new }
    ensures whole { layering.new.front ≡ 0 }
{
    let last = map.chain(k).len() - 1;
    let mut findings = Findings {
        course: Course::of(map, k, ruler),
        hints: Hints::at(ruler, direction_back(ruler), last),
    };
    layering.begin(last);
    for start in (0..last).rev() {
        let next = first_step(layering, map, k, beside, ruler, &mut findings, start);
        findings.hints.keep(ruler, start, next);
        layering.put(next);
    }
}

// The vertex that comes first of those that are one allowed step from `start`, which is the one
// before the front of the layering.
fn first_step(
    layering: &Layering,
    map: &IndexedMap,
    k: u32,
    beside: &Beside,
    ruler: &Ruler<'_>,
    findings: &mut Findings,
    start: usize,
) -> usize
    requires ready { IsReady map.now k beside.now ruler.now.weights ruler.now.bound
        ruler.now.xs.now ruler.now.ys.now }
    requires findings { AreFindings findings.old map.now k ruler.now.xs.now ruler.now.ys.now
        ruler.now.bound }
    requires front { layering.now.front ≡ start + 1 }
    requires last { layering.now.last + 1 ≡ length ruler.now.xs.now }
    requires within { start < layering.now.last }
    requires size { length ruler.now.xs.now ≤ 1024 }
    ensures step { IsFirstStep (AllowedBy map.now k ruler.now.xs.now ruler.now.ys.now
        ruler.now.bound) layering.now.last start result layering.now.layers }
    ensures findings { AreFindings findings.new map.now k ruler.now.xs.now ruler.now.ys.now
        ruler.now.bound }
{
    let mut reach = layering.last();
    let mut next = layering.first();
    let mut patience = PATIENCE;
    loop {
        if allows(map, k, beside, ruler, findings, start, next) {
            return next;
        }
        reach = narrowed(ruler, findings.course, start, reach, patience);
        patience = patience.saturating_sub(1);
        next = layering.following(next, reach);
    }
}

// How far on from `start` a vertex may be near, where it is known that none past `reach` is: less
// far once the patience ends.
fn narrowed(ruler: &Ruler<'_>, course: Course, start: usize, reach: usize, patience: u32) -> usize
    requires coordinates { AreCoordinates ruler.now.xs.now ruler.now.ys.now }
    requires runs { RunsAlong course.direction.frame course.direction.rising (place_at
        ruler.now.xs.now ruler.now.ys.now) (length ruler.now.xs.now) }
    requires in_lists { start + 1 < length ruler.now.xs.now }
    requires known { IsReach ruler.now.xs.now ruler.now.ys.now ruler.now.bound start reach }
    ensures { IsReach ruler.now.xs.now ruler.now.ys.now ruler.now.bound start result }
{
    if patience == 1 {
        reach_of(ruler, course, start)
    } else {
        reach
    }
}
