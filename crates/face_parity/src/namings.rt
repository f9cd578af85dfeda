//! Which polygons name an arc.
ghost use Rattle.std.specs.Prelude.{◌≡◌, ◌<◌, ◌≤◌, ◌+◌, ◌==◌, ◌&&◌, ℕ, Bool, List, IfOk, All};
ghost use Rattle.std.specs.Prelude.{length, slice_index, slice_index_or};
ghost use Rattle.std.specs.List.Sorted.{IsNonDecreasingBy};
ghost use Rattle.arc_map.specs.Map.{Map};
ghost use Rattle.face_parity.specs.Parities.{pass_oddly};
ghost use Rattle.face_parity.specs.Naming.{AreUnder, IsStartOf};
ghost use Rattle.face_parity.specs.declared.namings.Naming.{Naming};

use arc_map::NoMemory;
use std::alloc::{AllocError, Global};

// That a polygon names an arc, once, in a part of its rings. Below the floor an even number of
// edges of the part are crossed from any point.
#[derive(Clone, Copy)]
pub(crate) struct Naming {
    pub arc: u32,
    pub polygon: u32,
    pub floor: u32,
}

// The namings of the arcs of a map, in order of the arcs, and where those of each arc begin.
#[derive(Drop)]
pub(crate) struct Namings {
    namings: Vec<Naming>,
    starts: Vec<usize>,
    ghost starts_right: { (arc : ℕ) → arc < length starts.items
        → IsStartOf namings.items arc (slice_index starts.items arc) },
}

impl Namings {
    ghost use Rattle.face_parity.specs.Naming.{AreNamings};
    ghost use Rattle.face_parity.specs.Namings.{AreNamingsOf};

    // These namings, by arcs, of which there are so many.
    pub fn build(alloc: Global, mut namings: Vec<Naming>, arcs: u32) -> Result<Namings, NoMemory>
        ensures namings { IfOk result (λ n. (m : Map) → arcs ≡ length m.arcs
            → AreNamings m namings.items → AreNamingsOf m n) }
        ensures under { IfOk result (λ n. (floors : List ℕ) → AreUnder floors namings.items
            → AreUnder floors n.namings.items) }
    {
        namings.sort_unstable_by_key(|naming| naming.arc);
        let starts = starts_of(alloc, &namings, arcs)?;
        Ok(Namings { namings, starts })
    }

    // The namings of one arc.
    pub fn of_arc(&self, arc: u32) -> &[Naming]
        requires { arc + 1 < length self.now.starts.items }
        ensures odd { (test : Naming → Bool) → pass_oddly test result.now
            ≡ pass_oddly (λ n. (n.arc == arc) && test n) self.now.namings.items }
        ensures below { (count : ℕ) → All (λ n. n.polygon < count) self.now.namings.items
            → All (λ n. n.polygon < count) result.now }
    {
        let start = self.start_of(arc as usize);
        let end = self.start_of(arc as usize + 1);
        &self.namings[start..end]
    }

    // Where the namings of an arc begin.
    fn start_of(&self, arc: usize) -> usize
        requires { arc < length self.now.starts.items }
        ensures { IsStartOf self.now.namings.items arc result }
    {
        self.starts[arc]
    }
}

// Where the namings of each arc begin, which stand in order of the arcs, and where the last ones
// end.
fn starts_of(alloc: Global, namings: &[Naming], arcs: u32) -> Result<Vec<usize>, AllocError>
    requires { IsNonDecreasingBy (λ n. n.arc) namings.now }
    ensures whole { IfOk result (λ starts. length starts.items ≡ arcs + 1) }
    ensures right { IfOk result (λ starts. (arc : ℕ) → arc ≤ arcs
        → IsStartOf namings.now arc (slice_index starts.items arc)) }
{
    let mut starts = Vec::new(alloc);
    let mut start = 0;
    for arc in 0..=arcs {
        start = start_from(namings, start, arc);
        starts.push(start)?;
    }
    Ok(starts)
}

// The place of the first naming from `start` on whose arc is not below this one.
fn start_from(namings: &[Naming], start: usize, arc: u32) -> usize
    requires sorted { IsNonDecreasingBy (λ n. n.arc) namings.now }
    requires before { start ≤ length namings.now }
    requires below { (k : ℕ) (d : Naming) → k < start → (slice_index_or namings.now k d).arc < arc }
    ensures { IsStartOf namings.now arc result }
{
    let mut at = start;
    while at < namings.len() && namings[at].arc < arc {
        at += 1;
    }
    at
}
