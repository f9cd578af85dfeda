//! Maps of two edges.
ghost use Rattle.std.specs.Prelude.{◌≡◌, ◌≢◌, ◌∷◌, [], false, IfOk};

use arc_map::ArcMap;
use grid_exact::Point;
use std::alloc::{AllocError, Global};

/// The map of two arcs, from a to b and from c to d, each of one edge, and a feature point. The
/// only error is want of memory.
pub fn two_edges(
    alloc: Global,
    a: Point,
    b: Point,
    c: Point,
    d: Point,
    point: Point,
) -> Result<ArcMap, AllocError>
    requires first { a ≢ b }
    requires second { c ≢ d }
    ensures { IfOk result (λ map. map ≡ record {
      arcs = (a ∷ b ∷ []) ∷ (c ∷ d ∷ []) ∷ [];
      points = point ∷ [];
      polygons = [];
      coded = false;
    }) }
{
    let first = vec![in alloc; a, b]?;
    let second = vec![in alloc; c, d]?;
    let arcs = vec![in alloc; first, second]?;
    let points = vec![in alloc; point]?;
    Ok(ArcMap::new(arcs, points, Vec::new(alloc), false))
}
