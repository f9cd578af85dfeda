//! Which edges are crossed from a point, and whether a walk is crossed an odd number of times.
ghost use Rattle.std.specs.Prelude.{◌≡◌, ◌++◌, ◌∷◌, []};
ghost use Rattle.grid_exact.specs.Crossing.{is_before, is_passed, is_crossed};
ghost use Rattle.grid_exact.specs.Walks.{count_edges, end_of, is_odd, differ};

use crate::measure::area;
use crate::point::Point;

/// Whether the edge from a to b is crossed from p: by a ray that goes straight up from p, tilted so
/// little that it meets no point of the grid. An edge from a point to itself never is.
pub fn is_edge_crossed(p: Point, a: Point, b: Point) -> bool
    ensures { result ≡ is_crossed p a b }
{
    is_edge_passed(p, a, b) || is_edge_passed(p, b, a)
}

/// Whether an odd number of edges of the walk from the first point along the rest are crossed from
/// p.
pub fn is_walk_crossed_oddly(first: Point, rest: &[Point], p: Point) -> bool
    ensures { result ≡ is_odd (count_edges (is_crossed p) first rest.now) }
{
    let mut before = first;
    let mut odd = false;
    for q in rest {
        odd = exactly_one(odd, is_edge_crossed(p, before, *q));
        before = *q;
    }
    odd
}

/// Whether an odd number of edges of the closed walk from the first point along the rest and back
/// to the first are crossed from p.
pub fn is_closed_walk_crossed_oddly(first: Point, rest: &[Point], p: Point) -> bool
    ensures { result ≡ is_odd (count_edges (is_crossed p) first (rest.now ++ first ∷ [])) }
{
    exactly_one(
        is_walk_crossed_oddly(first, rest, p),
        is_edge_crossed(p, walk_end(first, rest), first),
    )
}

/// Whether exactly one of the two holds: of two parities, the parity of the sum.
pub fn exactly_one(a: bool, b: bool) -> bool
    ensures { result ≡ differ a b }
{
    a != b
}

// Where the walk from the first point along the rest ends.
fn walk_end(first: Point, rest: &[Point]) -> Point
    ensures { result ≡ end_of first rest.now }
{
    if rest.is_empty() {
        first
    } else {
        rest[rest.len() - 1]
    }
}

// Whether p stands between a and b, and to the right of the way from a to b.
fn is_edge_passed(p: Point, a: Point, b: Point) -> bool
    ensures { result ≡ is_passed p a b }
{
    comes_before(a, p) && comes_before(p, b) && area(a, b, p) < 0
}

// Whether a comes before b where x, then y is compared.
fn comes_before(a: Point, b: Point) -> bool
    ensures { result ≡ is_before a b }
{
    a.x() < b.x() || (a.x() <= b.x() && a.y() < b.y())
}
