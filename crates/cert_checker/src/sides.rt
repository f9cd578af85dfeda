//! Whether a point changes sides where a run of a chain becomes the segment between its ends.
ghost use Rattle.std.specs.Prelude.{◌≡◌, ◌<◌, ◌++◌, ◌∷◌, [], ◌↔◌, IsTrue, length};
ghost use Rattle.grid_exact.specs.Crossing.{is_crossed};
ghost use Rattle.grid_exact.specs.Walks.{count_edges, is_odd};
ghost use Rattle.arc_map.specs.Allowed.{IsConsistent};
ghost use Rattle.cert_checker.specs.Runs.{run_end, run_inner};

use grid_exact::{Point, is_closed_walk_crossed_oddly, on_segment};

// Whether p is an end of the run from the first place along the rest, or has one side of the run
// and of the segment between its ends.
pub fn is_consistent(first: Point, rest: &[Point], p: Point) -> bool
    requires { 0 < length rest.now }
    ensures { IsTrue result ↔ IsConsistent first (run_end first rest.now) (run_inner rest.now) p }
{
    let last = rest[rest.len() - 1];
    if p == first {
        return true;
    }
    if p == last {
        return true;
    }
    if on_segment(first, last, p) {
        return false;
    }
    !is_crossed_oddly(first, rest, p)
}

// Whether an odd number of edges of the closed walk along the run and back are crossed from p.
fn is_crossed_oddly(first: Point, rest: &[Point], p: Point) -> bool
    requires { 0 < length rest.now }
    ensures { result ≡ is_odd (count_edges (is_crossed p) first
        (run_inner rest.now ++ run_end first rest.now ∷ first ∷ [])) }
{
    is_closed_walk_crossed_oddly(first, rest, p)
}
