//! Levels: each is the map that a run leaves of the level before it.
ghost use Rattle.std.specs.Prelude.{◌≡◌, ◌+◌, ◌≤◌, ℕ, ℤ, pos, List, IfOk, get_or, length};
ghost use Rattle.arc_map.specs.Map.{Map};
ghost use Rattle.pyramid.specs.Levels.{AreRanks};
ghost use Rattle.pyramid.specs.LevelMemory.{IsComeTo, IsOnTheWay};

use crate::grid::{look_over, unit_weights};
use crate::places::{all_places, places_left};
use crate::ranks::{Ranks, no_ranks, raise_all};
use arc_map::NoMemory;
use arrangement_check::{Arranged, Partly};
use chain_replace::run_chains;
use grid_exact::Bound;
use std::alloc::{AllocError, Global};

// The level that a pyramid has come to: its map, for each arc the places that its positions have in
// the map read, and the ranks so far of the positions of the map read.
#[derive(Drop)]
struct Level {
    map: Arranged,
    places: Vec<Vec<u32>>,
    ranks: Vec<Vec<u32>>,
}

impl Level {
    // Level 0: the map read.
    fn first(alloc: Global, map: Arranged) -> Result<Level, AllocError>
        ensures { IfOk result (λ level. (bounds : List ℤ) → IsComeTo map bounds 0 level) }
    {
        let places = all_places(alloc, map.map())?;
        let ranks = no_ranks(alloc, map.map())?;
        Ok(Level { map, places, ranks })
    }

    // The level after this one, of this number.
    fn next(self, alloc: Global, bound: Bound, number: u32) -> Result<Level, NoMemory>
        requires { IsOnTheWay self }
        ensures { IfOk result (λ level. (m : Map) (bounds : List ℤ) (k : ℕ) → number ≡ k + 1
            → bound ≡ get_or bounds k (pos 0) → IsComeTo m bounds k self
            → IsComeTo m bounds (k + 1) level) }
    {
        let Level {
            map,
            places,
            mut ranks,
        } = self;
        look_over(map.map());
        let outcome = run_chains(alloc, Partly::whole(alloc, map), bound, unit_weights())?;
        let left = places_left(alloc, places.as_slice(), &outcome.records)?;
        raise_all(ranks.as_mut_slice(), left.as_slice(), number);
        Ok(Level {
            map: Arranged::adopt(outcome.map.into_map()),
            places: left,
            ranks,
        })
    }
}

/// The ranks of the positions of the map by the levels of these bounds, at most 16, in grid units.
/// Level 0 is the map read, and level `k` is what a run with the `k`-th bound, the weights 1 and no
/// held arcs leaves of the level before it. The only error is want of memory.
pub fn rank_all(alloc: Global, arranged: Arranged, bounds: &[Bound]) -> Result<Ranks, NoMemory>
    requires { length bounds.now ≤ 16 }
    ensures { IfOk result (AreRanks arranged bounds.now) }
{
    let mut level = Level::first(alloc, arranged)?;
    for (k, bound) in bounds.iter().enumerate() {
        level = level.next(alloc, *bound, k as u32 + 1)?;
    }
    Ok(Ranks::new(level.ranks))
}
