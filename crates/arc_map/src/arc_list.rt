//! Lists of arcs in rising order, as the arcs that a run holds still.
ghost use Rattle.std.specs.Prelude.{◌≡◌, ◌<◌, ◌≤◌, ◌^◌, ◌↔◌, IsTrue, Contains, length, slice_index};
ghost use Rattle.std.specs.Prelude.{slice_get};

use std::marker::Model;

/// Numbers of arcs, strictly rising. Contracts see the list.
#[derive(Drop)]
pub struct ArcList {
    arcs: Vec<u32>,
}

impl Model for ArcList {
    ghost use Rattle.std.specs.Prelude.{List, ℕ};
    ghost use Rattle.arc_map.specs.ArcList.{IsArcList};

    ghost Value = { List ℕ };

    ghost view = { λ a. a.arcs.items };

    ghost invariant = { λ a. IsArcList a.arcs.items };
}

impl ArcList {
    ghost use Rattle.arc_map.specs.ArcList.{IsArcList};

    /// The list of these numbers, strictly rising and at most `2^20` of them.
    pub fn new(arcs: Vec<u32>) -> ArcList
        requires { IsArcList arcs.items }
        ensures { result ≡ arcs.items }
    {
        ArcList { arcs }
    }

    /// How many arcs are in the list.
    pub fn count(&self) -> u32
        ensures value { result ≡ length self.now }
        ensures is_list { IsArcList self.now }
    {
        self.arcs.len() as u32
    }

    /// The number of the arc at place `k` of the list.
    pub fn get(&self, k: u32) -> u32
        requires { k < length self.now }
        ensures { result ≡ slice_index self.now k }
    {
        self.arcs[k as usize]
    }

    /// Whether the arc is in the list.
    pub fn has(&self, arc: u32) -> bool
        ensures { IsTrue result ↔ Contains self.now arc }
    {
        self.arcs.binary_search(&arc).is_ok()
    }
}
