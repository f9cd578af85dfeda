//! A map that is arranged but for some arcs, which are held.
ghost use Rattle.std.specs.Prelude.{◌≡◌, ◌↔◌, ◌<◌, ◌≤◌, ◌^◌, ℕ, IfOk, [], true, Contains, length};
ghost use Rattle.std.specs.Prelude.{slice_set};
ghost use Rattle.arc_map.specs.ArcList.{IsArcList};
ghost use Rattle.arc_map.specs.Arranged.{IsHeld, IsHeldList, IsMapArranged};
ghost use Rattle.sweep_index.specs.EdgeIndex.{IsIndexOf};
ghost use Rattle.arrangement_check.specs.Partly.{Holding};
ghost use Rattle.arrangement_check.specs.Marks.{IsMarked, MarksHeld, MarksClashes};

use crate::arranged::Arranged;
use crate::clashes::{edges_clash, town_is_on};
use arc_map::{ArcList, ArcMap, NoMemory};
use std::alloc::{AllocError, Global};
use std::marker::Model;
use sweep_index::EdgeIndex;

/// A map with a list of its arcs, beside which it is arranged: edges that clash are edges of these
/// arcs, and a feature point that lies on an edge lies on edges of these arcs alone. Contracts see
/// the map and the list.
#[derive(Drop)]
pub struct Partly {
    map: ArcMap,
    held: ArcList,
}

impl Model for Partly {
    ghost use Rattle.arc_map.specs.Arranged.{IsMapArranged};
    ghost use Rattle.arrangement_check.specs.Partly.{Holding};

    ghost Value = { Holding };

    ghost view = { λ p. record { map = p.map; held = p.held } };

    ghost invariant = { λ p. IsMapArranged p.held p.map };
}

impl Partly {
    /// An arranged map, with no arc held.
    pub fn whole(alloc: Global, arranged: Arranged) -> Partly
        ensures { result ≡ record { map = arranged; held = [] } }
    {
        Partly {
            map: arranged.into_map(),
            held: ArcList::new(Vec::new(alloc)),
        }
    }

    /// The map with these arcs held, beside which it is arranged.
    pub fn adopt(map: ArcMap, held: ArcList) -> Partly
        requires { IsMapArranged held map }
        ensures { result ≡ record { map = map; held = held } }
    {
        Partly { map, held }
    }

    /// The map.
    pub fn map(&self) -> &ArcMap
        ensures same { result.now ≡ self.now.map }
        ensures arranged { IsMapArranged self.now.held self.now.map }
    {
        &self.map
    }

    /// The arcs that are held.
    pub fn held(&self) -> &ArcList
        ensures { result.now ≡ self.now.held }
    {
        &self.held
    }

    /// The map itself.
    pub fn into_map(self) -> ArcMap
        ensures { result ≡ self.map }
    {
        self.map
    }

    /// The map itself, and the arcs that are held.
    pub fn into_parts(self) -> (ArcMap, ArcList)
        ensures map { result.0 ≡ self.map }
        ensures held { result.1 ≡ self.held }
        ensures arranged { IsMapArranged result.1 result.0 }
    {
        (self.map, self.held)
    }
}

/// The map with its held arcs: those of which an edge clashes with some edge, or on which a feature
/// point lies. The only error is want of memory.
pub fn hold(alloc: Global, map: ArcMap) -> Result<Partly, NoMemory>
    ensures same { IfOk result (λ partly. partly.map ≡ map) }
    ensures held { IfOk result (λ partly. IsHeldList map partly.held) }
{
    let index = EdgeIndex::build(alloc, &map)?;
    hold_over(alloc, map, &index)
}

/// What `hold` answers, by an index of the map that is at hand.
pub fn hold_over(alloc: Global, map: ArcMap, index: &EdgeIndex) -> Result<Partly, NoMemory>
    requires index { IsIndexOf map index.now }
    ensures same { IfOk result (λ partly. partly.map ≡ map) }
    ensures held { IfOk result (λ partly. IsHeldList map partly.held) }
{
    let mut marks = vec![in alloc; false; map.arc_count() as usize]?;
    mark_clashes(&map, index, &mut marks);
    mark_towns(&map, index, &mut marks);
    let held = ArcList::new(marked(alloc, &marks)?);
    Ok(Partly { map, held })
}

// Marks the arcs of edges that clash.
fn mark_clashes(map: &ArcMap, index: &EdgeIndex, marks: &mut [bool])
    requires index { IsIndexOf map.now index.now }
    requires long { length marks.old ≡ length map.now.arcs }
    requires only { MarksHeld map.now marks.old }
    ensures long { length marks.new ≡ length marks.old }
    ensures only { MarksHeld map.now marks.new }
    ensures clashes { MarksClashes map.now marks.new }
{
    let mut pairs = index.pairs();
    while let Some((e, f)) = pairs.next() {
        if edges_clash(map, e, f) {
            mark(marks, e.arc);
            mark(marks, f.arc);
        }
    }
}

// Marks the arcs on which feature points lie. Then each held arc is marked, and no other.
fn mark_towns(map: &ArcMap, index: &EdgeIndex, marks: &mut [bool])
    requires index { IsIndexOf map.now index.now }
    requires long { length marks.old ≡ length map.now.arcs }
    requires only { MarksHeld map.now marks.old }
    requires clashes { MarksClashes map.now marks.old }
    ensures long { length marks.new ≡ length marks.old }
    ensures exact { (arc : ℕ) → IsMarked marks.new arc ↔ IsHeld map.now arc }
{
    let mut towns = index.towns();
    while let Some((town, e)) = towns.next() {
        if town_is_on(map, town, e) {
            mark(marks, e.arc);
        }
    }
}

// Marks the arc.
fn mark(marks: &mut [bool], arc: u32)
    requires { arc < length marks.old }
    ensures marked { marks.new ≡ slice_set marks.old arc true }
    ensures long { length marks.new ≡ length marks.old }
{
    marks[arc as usize] = true;
}

// The places of the marks, rising.
fn marked(alloc: Global, marks: &[bool]) -> Result<Vec<u32>, AllocError>
    requires { length marks.now ≤ 2 ^ 20 }
    ensures list { IfOk result (λ arcs. IsArcList arcs.items) }
    ensures exact { IfOk result (λ arcs. (arc : ℕ) → Contains arcs.items arc
        ↔ IsMarked marks.now arc) }
{
    let mut arcs = Vec::new(alloc);
    for (arc, mark) in marks.iter().enumerate() {
        if *mark {
            arcs.push(arc as u32)?;
        }
    }
    Ok(arcs)
}
