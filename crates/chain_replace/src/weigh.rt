//! Coordinates of places, each times the weight of its axis.
ghost use Rattle.std.specs.Prelude.{◌≡◌, ◌≤◌, All, length, take};
ghost use Rattle.grid_exact.specs.Near.{weighted};
ghost use Rattle.grid_exact.specs.Weights.{StaysOnGrid};
ghost use Rattle.shortcut_graph.specs.Weighed.{AreWeighed};

use grid_exact::{Point, Weights};

// Writes the coordinates of the places, each times the weight of its axis, to the front of the
// lists.
pub fn weigh(weights: Weights, places: &[Point], xs: &mut Vec<i64>, ys: &mut Vec<i64>)
    requires on_grid { All (StaysOnGrid weights) places.now }
    requires across { length places.now ≤ length xs.old.items }
    requires up { length places.now ≤ length ys.old.items }
    ensures weighed { AreWeighed weights places.now (take (length places.now) xs.new.items)
        (take (length places.now) ys.new.items) }
    ensures across { length xs.new.items ≡ length xs.old.items }
    ensures up { length ys.new.items ≡ length ys.old.items }
{
    for (k, place) in places.iter().enumerate() {
        let weighed = times(weights, *place);
        xs[k] = weighed.x();
        ys[k] = weighed.y();
    }
}

// The point with its coordinates times the weights.
fn times(weights: Weights, place: Point) -> Point
    requires { StaysOnGrid weights place }
    ensures { result ≡ weighted weights.x weights.y place }
{
    match weights.apply(place) {
        Some(weighed) => weighed,
        None => unreachable!(),
    }
}
