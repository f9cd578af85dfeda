//! The search for the edge of a chain that a point has come to.
ghost use Rattle.std.specs.Prelude.{◌≡◌, ◌↔◌, ◌+◌, ◌-◌, ◌<◌, ◌≤◌, IsTrue, length};
ghost use Rattle.chain_side.specs.Along.{IsAlong, vertex_at};

use grid_exact::{Direction, Point, precedes};

/// Whether a comes before b along a chain of this direction.
pub fn comes_before(direction: Direction, a: Point, b: Point) -> bool
    ensures { IsTrue result ↔ IsAlong direction.frame direction.rising a b }
{
    if direction.rising {
        precedes(direction.frame, a, b)
    } else {
        precedes(direction.frame, b, a)
    }
}

/// The number of an edge of a chain whose start p does not come before, and whose end does not come
/// before p, found by halving. The chain is the list of its vertices, two or more, and p comes
/// neither before the first nor after the last.
pub fn edge_at(chain: &[Point], direction: Direction, p: Point) -> usize
    requires has_edge { 2 ≤ length chain.now }
    requires from_first { ¬ (IsAlong direction.frame direction.rising p (vertex_at chain.now 0)) }
    requires to_last { ¬ (IsAlong direction.frame direction.rising
        (vertex_at chain.now (length chain.now - 1)) p) }
    ensures in_chain { result + 1 < length chain.now }
    ensures from_start { ¬ (IsAlong direction.frame direction.rising p
        (vertex_at chain.now result)) }
    ensures to_end { ¬ (IsAlong direction.frame direction.rising (vertex_at chain.now (result + 1))
        p) }
{
    let mut low = 0;
    let mut high = chain.len() - 1;
    while low + 1 < high {
        let middle = low + (high - low) / 2;
        if comes_before(direction, p, chain[middle]) {
            high = middle;
        } else {
            low = middle;
        }
    }
    low
}
