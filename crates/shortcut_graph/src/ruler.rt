//! How near the vertices of a chain are to a segment between two of them.
ghost use Rattle.std.specs.Prelude.{◌↔◌, ◌<◌, IsTrue, length};
ghost use Rattle.lane_kernels.specs.Places.{AreCoordinates};
ghost use Rattle.shortcut_graph.specs.Weighed.{IsFarBetween};

use grid_exact::{Bound, Weights, within};
use lane_kernels::point_at;

/// The coordinates of a chain's vertices, each times the weight of its axis, with the bound and the
/// weights. All numbers are in grid units.
#[derive(Clone, Copy)]
pub struct Ruler<'a> {
    /// the coordinates across, each times the weight across
    pub xs: &'a [i64],
    /// the coordinates up, each times the weight up
    pub ys: &'a [i64],
    /// how far a skipped vertex may be from the segment
    pub bound: Bound,
    /// what each coordinate was multiplied by
    pub weights: Weights,
}

// Whether the vertex k is strictly between i and j and not within the bound of the segment between
// these two.
pub(crate) fn is_far(ruler: &Ruler<'_>, i: usize, j: usize, k: usize) -> bool
    requires coordinates { AreCoordinates ruler.now.xs.now ruler.now.ys.now }
    requires in_lists { j < length ruler.now.xs.now }
    ensures { IsTrue result ↔ IsFarBetween ruler.now.xs.now ruler.now.ys.now ruler.now.bound i j k }
{
    if k <= i || j <= k {
        return false;
    }
    let from = point_at(ruler.xs, ruler.ys, i);
    let to = point_at(ruler.xs, ruler.ys, j);
    !within(from, to, point_at(ruler.xs, ruler.ys, k), ruler.bound)
}
