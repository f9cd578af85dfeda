//! The odd arcs that no ring has yet.
ghost use Rattle.std.specs.Prelude.{◌≡◌, ◌<◌, Some, ℕ, false, IfOk, IfSome, OnOk, MatchOption, All};
ghost use Rattle.std.specs.Prelude.{Contains, get_or, length, position};
ghost use Rattle.grid_exact.specs.Geometry.{Place};
ghost use Rattle.arc_map.specs.Map.{Map};
ghost use Rattle.arc_map.specs.Ends.{is_same};
ghost use Rattle.dissolve.specs.Border.{EndsAt, IsNext, without};
ghost use Rattle.dissolve.specs.Unused.{AreUnmarked, AreUnused, IsAddedAt, IsPopped, IsTaken};
ghost use Rattle.dissolve.specs.Unused.{added_at, arcs_at, unused_in};
ghost use Rattle.dissolve.specs.Walk.{reference};

use crate::step::{Step, begins_at, first_position, last_position};
use arc_map::ArcMap;
use grid_exact::Point;
use indexmap::IndexSet;
use smallvec::SmallVec;
use std::alloc::{AllocError, Global};

// The arcs that are left, as marks, and for each position the arcs with an end there, falling. Of
// these the last are dropped once they are used, so that each is looked at once.
#[derive(Drop)]
pub(crate) struct Unused {
    marks: Vec<bool>,
    places: IndexSet<Point>,
    lists: Vec<SmallVec<u32, 2>>,
}

impl Unused {
    // The arcs that are marked.
    pub fn build(alloc: Global, map: &ArcMap, marks: Vec<bool>) -> Result<Unused, AllocError>
        requires { length marks.items ≡ length map.now.arcs }
        ensures unused { IfOk result (AreUnused map.now) }
        ensures marks { IfOk result (λ unused. unused.marks.items ≡ marks.items) }
    {
        let mut unused = Unused {
            marks,
            places: IndexSet::new(alloc),
            lists: Vec::new(alloc),
        };
        for arc in (0..map.arc_count()).rev() {
            unused.add_ends(alloc, map, arc)?;
        }
        Ok(unused)
    }

    // Puts the arc, if it is marked, at the ends of the lists of its ends.
    fn add_ends(&mut self, alloc: Global, map: &ArcMap, arc: u32) -> Result<(), AllocError>
        requires count { length self.old.marks.items ≡ length map.now.arcs }
        requires lists { length self.old.lists.items ≡ length self.old.places.keys }
        requires arc { arc < length map.now.arcs }
        ensures added { OnOk result (IsAddedAt map.now self.old self.new arc) }
    {
        if self.marks[arc as usize] {
            self.add(alloc, first_position(map, arc), arc)?;
            self.add(alloc, last_position(map, arc), arc)?;
        }
        Ok(())
    }

    // Puts the arc at the end of the list of the place.
    fn add(&mut self, alloc: Global, place: Point, arc: u32) -> Result<(), AllocError>
        requires { length self.old.lists.items ≡ length self.old.places.keys }
        ensures marks { OnOk result (self.new.marks.items ≡ self.old.marks.items) }
        ensures count { OnOk result (length self.new.lists.items ≡ length self.new.places.keys) }
        ensures lists { OnOk result ((p : Place) →
            arcs_at self.new p ≡ added_at place arc p (arcs_at self.old p)) }
    {
        let at = self.index_of(alloc, place)?;
        self.lists[at].push(arc)?;
        Ok(())
    }

    // The index of the place, which is new where it was not there.
    fn index_of(&mut self, alloc: Global, place: Point) -> Result<usize, AllocError>
        requires { length self.old.lists.items ≡ length self.old.places.keys }
        ensures marks { OnOk result (self.new.marks.items ≡ self.old.marks.items) }
        ensures index { IfOk result (λ at.
            position (is_same place) self.new.places.keys ≡ Some at) }
        ensures within { IfOk result (λ at. at < length self.new.lists.items) }
        ensures count { OnOk result (length self.new.lists.items ≡ length self.new.places.keys) }
        ensures lists { OnOk result ((p : Place) → arcs_at self.new p ≡ arcs_at self.old p) }
    {
        self.lists.reserve(1)?;
        let (at, is_new) = self.places.insert_full(place)?;
        if is_new {
            self.lists.push_reserved(SmallVec::new(alloc));
        }
        Ok(at)
    }

    // Whether the arc is left.
    pub fn has(&self, arc: u32) -> bool
        requires { arc < length self.now.marks.items }
        ensures { result ≡ get_or self.now.marks.items arc false }
    {
        self.marks[arc as usize]
    }

    // Takes the arc away.
    pub fn take(&mut self, arc: u32)
        requires { arc < length self.old.marks.items }
        ensures unused { (m : Map) → AreUnused m self.old → AreUnused m self.new }
        ensures left { unused_in self.new ≡ without arc (unused_in self.old) }
    {
        self.marks[arc as usize] = false;
    }

    // The step with which a ring goes on from the position: by the least arc that is left with an
    // end there, forwards if it begins there. The arc is taken away. None where no arc is left
    // there.
    pub fn next(&mut self, map: &ArcMap, at: Point) -> Option<Step>
        requires { AreUnused map.now self.old }
        ensures next { MatchOption result
            ((k : ℕ) → Contains (unused_in self.old) k → ¬ (EndsAt map.now at k))
            (λ step. IsNext map.now (unused_in self.old) at (reference step)) }
        ensures known { IfSome result (λ step. step.arc < length map.now.arcs) }
        ensures unused { IfSome result (λ step. AreUnused map.now self.new) }
        ensures left { IfSome result (λ step.
            unused_in self.new ≡ without step.arc (unused_in self.old)) }
    {
        match self.take_at(at) {
            Some(arc) => Some(Step {
                arc,
                forwards: begins_at(map, arc, at),
            }),
            None => None,
        }
    }

    // The least arc that is left in the list of the place, which is taken away.
    fn take_at(&mut self, place: Point) -> Option<u32>
        requires lists { length self.old.lists.items ≡ length self.old.places.keys }
        requires known { (p : Place) →
            All (λ k. k < length self.old.marks.items) (arcs_at self.old p) }
        ensures { MatchOption result
            (AreUnmarked self.old.marks.items (arcs_at self.old place))
            (IsTaken self.old self.new place) }
    {
        match self.places.get_index_of(&place) {
            Some(at) => match pop_marked(&mut self.lists[at], &self.marks) {
                Some(arc) => {
                    self.marks[arc as usize] = false;
                    Some(arc)
                }
                None => None,
            },
            None => None,
        }
    }
}

// The last of the arcs that is marked; it and those behind it are dropped.
fn pop_marked(arcs: &mut SmallVec<u32, 2>, marks: &[bool]) -> Option<u32>
    requires { All (λ k. k < length marks.now) arcs.old.items }
    ensures { MatchOption result
        (AreUnmarked marks.now arcs.old.items)
        (IsPopped marks.now arcs.old.items arcs.new.items) }
{
    while let Some(arc) = arcs.pop() {
        if marks[arc as usize] {
            return Some(arc);
        }
    }
    None
}
