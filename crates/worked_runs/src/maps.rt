//! Maps of few positions, with an arc that has an inner one.
ghost use Rattle.std.specs.Prelude.{◌≡◌, ◌≢◌, ◌∷◌, [], false, IfOk};

use arc_map::ArcMap;
use grid_exact::Point;
use std::alloc::{AllocError, Global};

/// The map of the arc over these three positions, and a feature point. The only error is want of
/// memory.
pub fn one_arc(
    alloc: Global,
    a: Point,
    b: Point,
    c: Point,
    point: Point,
) -> Result<ArcMap, AllocError>
    requires first { a ≢ b }
    requires second { b ≢ c }
    ensures { IfOk result (λ map. map ≡ record {
      arcs = (a ∷ b ∷ c ∷ []) ∷ [];
      points = point ∷ [];
      polygons = [];
      coded = false;
    }) }
{
    let arc = vec![in alloc; a, b, c]?;
    let arcs = vec![in alloc; arc]?;
    let points = vec![in alloc; point]?;
    Ok(ArcMap::new(arcs, points, Vec::new(alloc), false))
}

/// The map of an arc of one edge, and of an arc over three positions, and a feature point. The only
/// error is want of memory.
pub fn bump_beside_edge(
    alloc: Global,
    edge: (Point, Point),
    arc: (Point, Point, Point),
    point: Point,
) -> Result<ArcMap, AllocError>
    requires edge { edge.0 ≢ edge.1 }
    requires first { arc.0 ≢ arc.1 }
    requires second { arc.1 ≢ arc.2 }
    ensures { IfOk result (λ map. map ≡ record {
      arcs = (edge.0 ∷ edge.1 ∷ []) ∷ (arc.0 ∷ arc.1 ∷ arc.2 ∷ []) ∷ [];
      points = point ∷ [];
      polygons = [];
      coded = false;
    }) }
{
    let first = vec![in alloc; edge.0, edge.1]?;
    let second = vec![in alloc; arc.0, arc.1, arc.2]?;
    let arcs = vec![in alloc; first, second]?;
    let points = vec![in alloc; point]?;
    Ok(ArcMap::new(arcs, points, Vec::new(alloc), false))
}
