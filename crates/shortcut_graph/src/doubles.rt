//! Other chains that are an edge between the ends of a chain.
ghost use Rattle.std.specs.Prelude.{◌↔◌, ◌<◌, IsTrue, length};
ghost use Rattle.shortcut_graph.specs.Doubles.{AreEndsOf, IsDoubled, IsTwin};

use grid_exact::{Point, same_ends};
use map_index::IndexedMap;

// Whether another chain than the chain number `k` is one edge between the ends of that chain.
pub(crate) fn is_doubled(map: &IndexedMap, k: u32) -> bool
    requires { k < length map.now.chains }
    ensures { IsTrue result ↔ IsDoubled map.now.chains k }
{
    let chain = map.chain(k);
    let (first, last) = (chain[0], chain[chain.len() - 1]);
    for other in map.chains_at(first) {
        if is_twin(map, k, *other, first, last) {
            return true;
        }
    }
    false
}

// Whether the chain number `other` is another than the chain number `k`, and one edge between a and
// b.
fn is_twin(map: &IndexedMap, k: u32, other: u32, a: Point, b: Point) -> bool
    requires { other < length map.now.chains }
    ensures { IsTrue result ↔ IsTwin map.now.chains k other a b }
{
    other != k && is_edge_between(map.chain(other), a, b)
}

// Whether the chain is one edge between a and b.
fn is_edge_between(chain: &[Point], a: Point, b: Point) -> bool
    ensures { IsTrue result ↔ AreEndsOf a b chain.now }
{
    chain.len() == 2 && same_ends(a, b, chain[0], chain[1])
}
