//! Points beside the edges of a chain, and the rows in which they are kept.
ghost use Rattle.std.specs.Prelude.{◌≡◌, ◌↔◌, ◌+◌, ◌-◌, ◌*◌, ◌<◌, ◌≤◌, ℕ, Some, IfSome, IfNone};
ghost use Rattle.std.specs.Prelude.{IsTrue, length, map, slice_index, slice_index_or, vec_capacity};
ghost use Rattle.std.specs.List.Sorted.{IsNonDecreasingBy};
ghost use Rattle.grid_exact.specs.Geometry.{Place, area_of};
ghost use Rattle.chain_side.specs.Along.{IsAlong, vertex_at};
ghost use Rattle.chain_side.specs.Sides.{IsMonotoneChain};
ghost use Rattle.lane_kernels.specs.declared.side.Hand.{Hand};
ghost use Rattle.lane_kernels.specs.Hands.{IsOnSide};
ghost use Rattle.lane_kernels.specs.Places.{AreCoordinates};
ghost use Rattle.side_wedge.specs.Flanks.{row_of};
ghost use Rattle.side_wedge.specs.Strays.{RunsAlong, IsOverEdge, IsStrayItem, IsStrayOf, IsStartOf};
ghost use Rattle.side_wedge.specs.Strays.{stray};

use chain_side::{comes_before, edge_at};
use grid_exact::{Direction, Frame, Point, area, precedes};
use lane_kernels::Hand;
use map_index::is_other;
use sweep_index::Item;

// A point beside an edge of a chain, in its row: of two rows to an edge, that on its
// left has the even number.
#[derive(Clone, Copy)]
pub struct Stray {
    pub row: u32,
    pub at: Point,
}

// Whether the chain rises in the order of its frame, or falls.
pub fn rises(chain: &[Point], frame: Frame) -> bool
    requires { IsMonotoneChain frame chain.now }
    ensures { RunsAlong frame result chain.now }
{
    precedes(frame, chain[0], chain[chain.len() - 1])
}

// The item as a stray, where it belongs to another chain than the chain number `k`, or to none, and
// stands beside an edge of the chain.
pub fn stray_of(chain: &[Point], direction: Direction, k: u32, item: Item) -> Option<Stray>
    requires several { 2 ≤ length chain.now }
    requires short { length chain.now ≤ 1024 }
    ensures some { IfSome result (IsStrayOf direction.frame direction.rising chain.now k item) }
    ensures all { (s : ℕ) (hand : Hand) → RunsAlong direction.frame direction.rising chain.now
        → IsStrayItem direction.frame direction.rising chain.now k item s hand
        → result ≡ Some (stray s hand item.at) }
{
    if !is_other(item.owner, k) {
        return None;
    }
    let edge = edge_under(chain, direction, item.at)?;
    let hand = hand_beside(chain[edge], chain[edge + 1], item.at)?;
    Some(Stray {
        row: row(edge, hand),
        at: item.at,
    })
}

// The number of the row on this hand of an edge.
fn row(edge: usize, hand: Hand) -> u32
    requires { edge < 1024 }
    ensures { result ≡ row_of edge hand }
{
    match hand {
        Hand::Left => 2 * edge as u32,
        Hand::Right => 2 * edge as u32 + 1,
    }
}

// The edge of the chain between whose ends p stands strictly.
fn edge_under(chain: &[Point], direction: Direction, p: Point) -> Option<usize>
    requires { 2 ≤ length chain.now }
    ensures some { IfSome result (IsOverEdge direction.frame direction.rising chain.now p) }
    ensures all { (s : ℕ) → RunsAlong direction.frame direction.rising chain.now
        → IsOverEdge direction.frame direction.rising chain.now p s → result ≡ Some s }
{
    let last = chain.len() - 1;
    if comes_before(direction, p, chain[0]) || comes_before(direction, chain[last], p) {
        return None;
    }
    let edge = edge_at(chain, direction, p);
    if is_between(direction, chain[edge], chain[edge + 1], p) {
        Some(edge)
    } else {
        None
    }
}

// Whether p comes after a and before b along the chain.
fn is_between(direction: Direction, a: Point, b: Point, p: Point) -> bool
    ensures { IsTrue result ↔ (IsAlong direction.frame direction.rising a p
        × IsAlong direction.frame direction.rising p b) }
{
    comes_before(direction, a, p) && comes_before(direction, p, b)
}

// The hand of the way from a to b on which p is, or None where it is on the line.
fn hand_beside(a: Point, b: Point, p: Point) -> Option<Hand>
    ensures { (hand : Hand) → (result ≡ Some hand) ↔ IsOnSide hand a b p }
{
    let left = area(a, b, p);
    if left > 0 {
        Some(Hand::Left)
    } else if left < 0 {
        Some(Hand::Right)
    } else {
        None
    }
}

// Writes where each row begins, and where the last one ends, for strays in order of their rows.
// There is room for it.
pub fn write_starts(starts: &mut Vec<usize>, strays: &[Stray], rows: u32)
    requires sorted { IsNonDecreasingBy (λ x. x.row) strays.now }
    requires room { rows + 1 ≤ vec_capacity starts.old }
    ensures count { length starts.new.items ≡ rows + 1 }
    ensures right { (row : ℕ) → row ≤ rows
        → IsStartOf strays.now row (slice_index starts.new.items row) }
    ensures capacity { vec_capacity starts.new ≡ vec_capacity starts.old }
{
    starts.clear();
    let mut start = 0;
    for row in 0..=rows {
        start = start_from(strays, start, row);
        starts.push_reserved(start);
    }
}

// The place of the first stray from `start` on whose row is not below this one.
fn start_from(strays: &[Stray], start: usize, row: u32) -> usize
    requires sorted { IsNonDecreasingBy (λ x. x.row) strays.now }
    requires before { start ≤ length strays.now }
    requires below { (k : ℕ) (d : Stray) → k < start → (slice_index_or strays.now k d).row < row }
    ensures { IsStartOf strays.now row result }
{
    let mut at = start;
    while at < strays.len() && strays[at].row < row {
        at += 1;
    }
    at
}

// Writes the coordinates of the strays. There is room for them.
pub fn write_places(xs: &mut Vec<i64>, ys: &mut Vec<i64>, strays: &[Stray])
    requires x_room { length strays.now ≤ vec_capacity xs.old }
    requires y_room { length strays.now ≤ vec_capacity ys.old }
    ensures across { xs.new.items ≡ map (λ x. x.at.x) strays.now }
    ensures up { ys.new.items ≡ map (λ x. x.at.y) strays.now }
    ensures coordinates { AreCoordinates xs.new.items ys.new.items }
    ensures x_capacity { vec_capacity xs.new ≡ vec_capacity xs.old }
    ensures y_capacity { vec_capacity ys.new ≡ vec_capacity ys.old }
{
    xs.clear();
    ys.clear();
    for stray in strays {
        xs.push_reserved(stray.at.x());
        ys.push_reserved(stray.at.y());
    }
}
