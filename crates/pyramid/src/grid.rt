//! The weights 1, and the positions that they leave where they are.
ghost use Rattle.std.specs.Prelude.{◌≡◌, All};
ghost use Rattle.grid_exact.specs.Weights.{StaysOnGrid};
ghost use Rattle.pyramid.specs.Levels.{ones};

use arc_map::ArcMap;
use grid_exact::{Point, Weights};

// The weights 1.
pub(crate) fn unit_weights() -> Weights
    ensures { result ≡ ones }
{
    match Weights::new(1, 1) {
        Some(weights) => weights,
        None => unreachable!(),
    }
}

// Looks at each position of the map. Each is on the grid, as its coordinates show, so the weights 1
// leave it there.
pub(crate) fn look_over(map: &ArcMap)
    ensures { All (All (StaysOnGrid ones)) map.now.arcs }
{
    for arc in 0..map.arc_count() {
        look_along(map.arc(arc));
    }
}

// Looks at each of the positions.
fn look_along(positions: &[Point])
    ensures { All (StaysOnGrid ones) positions.now }
{
    for position in positions {
        look_at(*position);
    }
}

// Looks at the position.
fn look_at(position: Point)
    ensures { StaysOnGrid ones position }
{
    let _across = position.x();
    let _up = position.y();
}
