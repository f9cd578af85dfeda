//! Closed boxes.
ghost use Rattle.grid_exact.specs.Geometry.{IsGridNumber};
ghost use Rattle.std.specs.Prelude.{◌≡◌};
ghost use Rattle.sweep_index.specs.Box.{is_from_to};

use grid_exact::Point;

// A closed box.
#[derive(Clone, Copy)]
pub struct Area {
    pub west: i64,
    pub south: i64,
    pub east: i64,
    pub north: i64,
    pub ghost on_grid: { IsGridNumber west × IsGridNumber south × IsGridNumber east
        × IsGridNumber north },
}

impl Area {
    ghost use Rattle.sweep_index.specs.Area.{lowest, highest};
    ghost use Rattle.sweep_index.specs.Box.{is_in_box};

    // The box from its lowest corner to its highest.
    pub fn between(low: Point, high: Point) -> Area
        ensures low { lowest result ≡ low }
        ensures high { highest result ≡ high }
    {
        Area {
            west: low.x(),
            south: low.y(),
            east: high.x(),
            north: high.y(),
        }
    }

    // Whether the point stands in the box.
    pub fn holds(&self, p: Point) -> bool
        ensures { result ≡ is_in_box (lowest self.now) (highest self.now) p }
    {
        is_between(self.west, p.x(), self.east) && is_between(self.south, p.y(), self.north)
    }
}

// Whether z is from the low number to the high one.
fn is_between(low: i64, z: i64, high: i64) -> bool
    ensures { result ≡ is_from_to low high z }
{
    low <= z && z <= high
}
