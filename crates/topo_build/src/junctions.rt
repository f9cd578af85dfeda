//! The junctions of rings: the positions that the rings do not all pass in one way.
ghost use Rattle.std.specs.Prelude.{◌≡◌, ◌⊎◌, ◌<◌, ◌≤◌, ◌↔◌, ◌∷◌, ◌++◌, [], IsTrue, All, List};
ghost use Rattle.std.specs.Prelude.{MatchOption, OnOk, IfOk, map};
ghost use Rattle.grid_exact.specs.Segments.{SameEnds};
ghost use Rattle.topo_build.specs.Junctions.{Turn, turns_of, turns_round};
ghost use Rattle.topo_build.specs.Passages.{AreTold, IsAgain, IsFirst, IsFirstMarked, IsMarked};
ghost use Rattle.topo_build.specs.Passages.{IsNext, MakesJunction, found_at, turn};

use grid_exact::Point;
use indexmap::IndexMap;
use std::alloc::{AllocError, Global};

// How the rings pass a position: its neighbours where it was first met, and the number of the last
// ring that has it. Its neighbours elsewhere are the same two, in either order, unless it is a
// junction.
#[derive(Clone, Copy)]
struct Passage {
    before: Point,
    after: Point,
    ring: usize,
    is_junction: bool,
}

impl Passage {
    // Where the position is met for the first time.
    fn first(before: Point, after: Point, ring: usize) -> Passage
        ensures { IsFirst ring before after result }
    {
        Passage {
            before,
            after,
            ring,
            is_junction: before == after,
        }
    }

    // Where it is met again, with these neighbours, in this ring.
    fn again(&self, before: Point, after: Point, ring: usize) -> Passage
        ensures { IsAgain self.now ring before after result }
    {
        Passage {
            before: self.before,
            after: self.after,
            ring,
            is_junction: self.is_cut(before, after, ring),
        }
    }

    // Whether the position is a junction, with these neighbours in this ring too.
    fn is_cut(&self, before: Point, after: Point, ring: usize) -> bool
        ensures { IsTrue result ↔
            (IsTrue self.now.is_junction ⊎ MakesJunction self.now ring before after) }
    {
        self.is_junction || before == after || self.ring == ring || !self.is_between(before, after)
    }

    // Whether these are the two neighbours, in either order.
    fn is_between(&self, before: Point, after: Point) -> bool
        ensures { IsTrue result ↔ SameEnds self.now.before self.now.after before after }
    {
        self.is_from(before, after) || self.is_from(after, before)
    }

    // Whether these are the two neighbours, in this order.
    fn is_from(&self, before: Point, after: Point) -> bool
        ensures { IsTrue result ↔ ((self.now.before ≡ before) × (self.now.after ≡ after)) }
    {
        self.before == before && self.after == after
    }
}

// How the rings pass each position of rings of two or more.
#[derive(Drop)]
pub(crate) struct Junctions {
    passages: IndexMap<Point, Passage>,
}

impl Junctions {
    // The junctions of the rings, which are cyclic lists.
    pub fn build(alloc: Global, rings: &[Vec<Point>]) -> Result<Junctions, AllocError>
        ensures { IfOk result (AreTold (turns_of 0 (map (λ ring. ring.items) rings.now))) }
    {
        let mut junctions = Junctions {
            passages: IndexMap::new(alloc),
        };
        for (k, ring) in rings.iter().enumerate() {
            junctions.pass(alloc, ring, k)?;
        }
        Ok(junctions)
    }

    // Whether the position is a junction.
    pub fn has(&self, p: Point) -> bool
        ensures { IsTrue result ↔ IsMarked self.now p }
    {
        match self.passages.get(&p) {
            Some(passage) => passage.is_junction,
            None => false,
        }
    }

    // The place of the first junction in the ring.
    pub fn first(&self, ring: &[Point]) -> Option<usize>
        ensures { MatchOption result
            (All (λ p. ¬ (IsMarked self.now p)) ring.now)
            (λ at. IsFirstMarked self.now ring.now at) }
    {
        for (at, p) in ring.iter().enumerate() {
            if self.has(*p) {
                return Some(at);
            }
        }
        None
    }

    // Passes all positions of a ring, which has a number that is not below those of the rings
    // before.
    fn pass(&mut self, alloc: Global, ring: &[Point], number: usize) -> Result<(), AllocError>
        ensures { OnOk result ((turns : List Turn) → All (λ t. t.ring < number) turns →
            AreTold turns self.old → AreTold (turns ++ turns_round number ring.now) self.new) }
    {
        let mut walk = ring.to_vec(alloc)?;
        walk.extend_from_slice(&ring[..ring.len().min(2)])?;
        for k in 2..walk.len() {
            self.note(walk[k - 2], walk[k - 1], walk[k], number)?;
        }
        Ok(())
    }

    // Passes a position between its two neighbours.
    fn note(
        &mut self,
        before: Point,
        at: Point,
        after: Point,
        ring: usize,
    ) -> Result<(), AllocError>
        ensures { OnOk result ((turns : List Turn) → All (λ t. t.ring ≤ ring) turns →
            AreTold turns self.old → AreTold (turns ++ turn ring before at after ∷ []) self.new) }
    {
        let passage = self.next(before, at, after, ring);
        self.passages.insert(at, passage)?;
        Ok(())
    }
    // The passage of a position that is met between its two neighbours.
    fn next(&self, before: Point, at: Point, after: Point, ring: usize) -> Passage
        ensures { IsNext (found_at self.now at) ring before after result }
    {
        match self.passages.get(&at) {
            Some(passage) => passage.again(before, after, ring),
            None => Passage::first(before, after, ring),
        }
    }
}
