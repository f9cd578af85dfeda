//! Boxes round positions, and where lists of positions begin and end, in offsets: coordinates that
//! are counted from the least one of the grid.
ghost use Rattle.std.specs.Prelude.{◌≡◌, ◌<◌, ◌≤◌, ◌^◌, All, length, min, max};
ghost use Rattle.face_parity.specs.Bounds.{IsOffsetOf, IsIn, IsRound, IsEndsOf, do_part};
ghost use Rattle.face_parity.specs.Bounds.{does_reach};

use grid_exact::{Point, exactly_one};

// The coordinates of a place, counted from the least one.
#[derive(Clone, Copy)]
pub(crate) struct Offset {
    pub x: u32,
    pub y: u32,
}

impl Offset {
    // Those of the point.
    pub fn of(p: Point) -> Offset
        ensures { IsOffsetOf p result }
    {
        Offset {
            x: sweep_index::offset(p.x()),
            y: sweep_index::offset(p.y()),
        }
    }
}

// A closed box.
#[derive(Clone, Copy)]
pub(crate) struct Bounds {
    pub west: u32,
    pub east: u32,
    pub south: u32,
    pub north: u32,
}

impl Bounds {
    // A box round these positions.
    pub fn round(positions: &[Point]) -> Bounds
        requires { 0 < length positions.now }
        ensures round { IsRound positions.now result }
        ensures small { (result.east ≤ 2 ^ 30) × (result.north ≤ 2 ^ 30) }
    {
        let mut bounds = Bounds::at(Offset::of(positions[0]));
        for p in positions {
            bounds = bounds.with(Offset::of(*p));
        }
        bounds
    }

    // The box of one place.
    fn at(at: Offset) -> Bounds
        ensures { result ≡ record { west = at.x; east = at.x; south = at.y; north = at.y } }
    {
        Bounds {
            west: at.x,
            east: at.x,
            south: at.y,
            north: at.y,
        }
    }

    // The box with one more place in it.
    fn with(self, at: Offset) -> Bounds
        ensures { result ≡ record {
          west = min self.west at.x;
          east = max self.east at.x;
          south = min self.south at.y;
          north = max self.north at.y;
        } }
    {
        Bounds {
            west: self.west.min(at.x),
            east: self.east.max(at.x),
            south: self.south.min(at.y),
            north: self.north.max(at.y),
        }
    }

    // Whether some place of the box may be over this one: its x is in the range of the box, and its
    // y not above it.
    pub fn reaches(&self, at: Offset) -> bool
        ensures { result ≡ does_reach self.now at }
    {
        (self.west <= at.x && at.x <= self.east) && at.y <= self.north
    }
}

// The x at which a list of positions begins and ends.
#[derive(Clone, Copy)]
pub(crate) struct Ends {
    pub first: u32,
    pub last: u32,
}

impl Ends {
    // Those of these positions.
    pub fn of(positions: &[Point]) -> Ends
        requires { 0 < length positions.now }
        ensures { IsEndsOf positions.now result }
    {
        let first = Offset::of(positions[0]);
        let last = Offset::of(positions[positions.len() - 1]);
        Ends {
            first: first.x,
            last: last.x,
        }
    }

    // Whether just one of the two is left of x.
    pub fn part(self, x: u32) -> bool
        ensures { result ≡ do_part self x }
    {
        exactly_one(self.first < x, self.last < x)
    }
}
