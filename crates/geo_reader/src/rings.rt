//! Rings, one behind the other in one list of positions.
ghost use Rattle.std.specs.Prelude.{◌≡◌, ◌+◌, ◌<◌, ◌≤◌, ◌^◌, [], ◌∷◌, ◌++◌, length, sum_by};
ghost use Rattle.std.specs.Prelude.{slice_get, OnOk};
ghost use Rattle.geo_reader.specs.Geo.{IsRing};

use grid_exact::Point;
use std::alloc::{AllocError, Global};
use std::marker::Model;

// Where the positions of a ring lie in the list of all.
#[derive(Clone, Copy)]
struct Part {
    start: u32,
    end: u32,
}

/// Rings of at most `2^19` positions in sum. Contracts see for each the list of its positions.
#[derive(Drop)]
pub struct RingList {
    positions: Vec<Point>,
    parts: Vec<Part>,
}

impl Model for RingList {
    ghost use Rattle.std.specs.Prelude.{List};
    ghost use Rattle.grid_exact.specs.Geometry.{Place};
    ghost use Rattle.geo_reader.specs.Flat.{rings_of, AreFlat};

    ghost Value = { List (List Place) };

    ghost view = { λ a. rings_of a.positions.items a.parts.items };

    ghost invariant = { λ a. AreFlat a.positions.items a.parts.items };
}

impl RingList {
    /// No rings.
    pub fn new(alloc: Global) -> RingList
        ensures { result ≡ [] }
    {
        RingList {
            positions: Vec::new(alloc),
            parts: Vec::new(alloc),
        }
    }

    /// How many rings there are.
    pub fn count(&self) -> u32
        ensures value { result ≡ length self.now }
        ensures few { result ≤ 2 ^ 17 }
    {
        self.parts.len() as u32
    }

    /// How many positions the rings have in sum.
    pub fn position_count(&self) -> u32
        ensures value { result ≡ sum_by length self.now }
        ensures few { result ≤ 2 ^ 19 }
    {
        self.positions.len() as u32
    }

    /// The positions of ring number `r`, in order.
    pub fn ring(&self, r: u32) -> &[Point]
        requires { r < length self.now }
        ensures { slice_get self.now r ≡ Some result.now }
    {
        let part = self.parts[r as usize];
        &self.positions[part.start as usize..part.end as usize]
    }

    /// Adds a ring at the end. The only error is want of memory.
    pub fn push(&mut self, ring: &[Point]) -> Result<(), AllocError>
        requires is_ring { IsRing ring.now }
        requires few { sum_by length self.old + length ring.now ≤ 2 ^ 19 }
        ensures { OnOk result (self.new ≡ self.old ++ ring.now ∷ []) }
    {
        self.parts.reserve(1)?;
        let start = self.positions.len() as u32;
        self.positions.extend_from_slice(ring)?;
        let end = self.positions.len() as u32;
        self.parts.push_reserved(Part { start, end });
        Ok(())
    }
}
