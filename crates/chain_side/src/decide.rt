//! The side of a point: the edge that spans it decides.
ghost use Rattle.std.specs.Prelude.{◌≡◌, ◌↔◌};
ghost use Rattle.chain_side.specs.Sides.{IsMonotoneChain, IsSideOfChain, IsSideOfEdge};
ghost use Rattle.chain_side.specs.Sides.{IsSideBySign};

use crate::search::{comes_before, edge_at};
use crate::sides::Side;
use grid_exact::{Direction, Frame, Point, area, precedes};

/// The side of a chain on which p lies. The chain is the list of its vertices, two or more, which
/// run strictly one way in the order of the frame. An edge is found by halving, so a chain of n
/// vertices takes about log2(n) comparisons.
pub fn side(chain: &[Point], frame: Frame, p: Point) -> Side
    requires { IsMonotoneChain frame chain.now }
    ensures { (side : Side) → (result ≡ side) ↔ IsSideOfChain frame chain.now p side }
{
    let first = chain[0];
    let last = chain[chain.len() - 1];
    let rising = precedes(frame, first, last);
    let direction = Direction { frame, rising };
    if comes_before(direction, p, first) || comes_before(direction, last, p) {
        return Side::Outside;
    }
    let at = edge_at(chain, direction, p);
    if rising {
        side_of_edge(frame, chain[at], chain[at + 1], p)
    } else {
        side_of_edge(frame, chain[at + 1], chain[at], p)
    }
}

// The side of the edge ab, a before b in the frame's order, on which a point between the two lies.
fn side_of_edge(frame: Frame, a: Point, b: Point, p: Point) -> Side
    ensures { IsSideOfEdge frame a b p result }
{
    match frame {
        Frame::Plain => side_by_sign(area(a, b, p)),
        Frame::Turned => side_by_sign(area(b, a, p)),
    }
}

// The side that the sign of an area tells, where above is to the left of the way.
fn side_by_sign(left: i64) -> Side
    ensures { IsSideBySign left result }
{
    if left > 0 {
        Side::Above
    } else if left < 0 {
        Side::Below
    } else {
        Side::On
    }
}
