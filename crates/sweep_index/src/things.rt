//! Edges and feature points with the boxes round them.
ghost use Rattle.std.specs.Prelude.{◌≡◌, ◌≤◌, ◌^◌};

use crate::grid::offset;
use arc_map::EdgeRef;
use grid_exact::Point;

// An edge or a feature point of a map, by its number.
#[derive(Clone, Copy)]
pub enum Thing {
    Edge(EdgeRef),
    Town(u32),
}

// A closed box, by offsets.
#[derive(Clone, Copy)]
pub struct Extent {
    pub west: u32,
    pub east: u32,
    pub south: u32,
    pub north: u32,
    pub ghost small: { west ≤ 2 ^ 30 },
}

impl Extent {
    ghost use Rattle.sweep_index.specs.Meetings.{do_meet};
    ghost use Rattle.sweep_index.specs.Things.{IsRound};

    // The box round two points.
    pub fn of(a: Point, b: Point) -> Extent
        ensures { IsRound a b result }
    {
        let (ax, ay) = (offset(a.x()), offset(a.y()));
        let (bx, by) = (offset(b.x()), offset(b.y()));
        Extent {
            west: ax.min(bx),
            east: ax.max(bx),
            south: ay.min(by),
            north: ay.max(by),
        }
    }

    // Whether two boxes have a point in common.
    pub fn meets(&self, other: &Extent) -> bool
        ensures { result ≡ do_meet self.now other.now }
    {
        (self.west <= other.east && other.west <= self.east)
            && (self.south <= other.north && other.south <= self.north)
    }
}

// A thing in a band of y that its box reaches.
#[derive(Clone, Copy)]
pub struct Banded {
    pub band: u32,
    pub extent: Extent,
    pub thing: Thing,
}
