//! The ranks of the positions of a map.
ghost use Rattle.std.specs.Prelude.{◌≡◌, ◌<◌, ℕ, IfOk, All, [], get_or, length};
ghost use Rattle.arc_map.specs.Arranged.{arc_at};
ghost use Rattle.pyramid.specs.Levels.{rank_at};
ghost use Rattle.pyramid.specs.Places.{list_of, lists_of, AreRaised};
ghost use Rattle.pyramid.specs.Texts.{ranks_text};

use crate::text::write_text;
use arc_map::{ArcMap, NoMemory};
use grid_exact::Bound;
use std::alloc::{AllocError, Global};
use std::marker::Model;

/// For each position of each arc of a map its rank: the number of the last level that keeps it,
/// where the map read is level 0. Contracts see for each arc the list of the ranks of its
/// positions.
#[derive(Drop)]
pub struct Ranks {
    ranks: Vec<Vec<u32>>,
}

impl Model for Ranks {
    ghost use Rattle.std.specs.Prelude.{List, ℕ};
    ghost use Rattle.pyramid.specs.Places.{lists_of};

    ghost Value = { List (List ℕ) };

    ghost view = { λ r. lists_of r.ranks.items };
}

impl Ranks {
    // These ranks.
    pub(crate) fn new(ranks: Vec<Vec<u32>>) -> Ranks
        ensures { result ≡ lists_of ranks.items }
    {
        Ranks { ranks }
    }

    /// The rank of position number `at` of arc number `arc`, both from 0, repeats taken out: the
    /// number of the last level that keeps it.
    pub fn rank(&self, arc: u32, at: u32) -> u32
        requires arc { arc < length self.now }
        requires at { at < length (get_or self.now arc []) }
        ensures { result ≡ rank_at self.now arc at }
    {
        self.ranks[arc as usize][at as usize]
    }

    /// The text of the ranks by the levels of these bounds: `{"bounds":`, the list of the bounds,
    /// `,"ranks":`, the list with one list of ranks for each arc, and `}`. Numbers are decimals,
    /// and there is no white space. The only error is want of memory.
    pub fn text(&self, alloc: Global, bounds: &[Bound]) -> Result<Vec<u8>, NoMemory>
        ensures { IfOk result (λ text. text.items ≡ ranks_text bounds.now self.now) }
    {
        let mut out = Vec::new(alloc);
        write_text(&mut out, bounds, self.ranks.as_slice())?;
        Ok(out)
    }
}

// The rank 0 for each position of each arc of the map.
pub(crate) fn no_ranks(alloc: Global, map: &ArcMap) -> Result<Vec<Vec<u32>>, AllocError>
    ensures count { IfOk result (λ ranks. length ranks.items ≡ length map.now.arcs) }
    ensures long { IfOk result (λ ranks. (arc : ℕ) → arc < length map.now.arcs →
        length (list_of ranks.items arc) ≡ length (arc_at map.now arc)) }
    ensures zero { IfOk result (λ ranks. (arc : ℕ) → arc < length map.now.arcs → (at : ℕ) →
        get_or (list_of ranks.items arc) at 0 ≡ 0) }
{
    let mut ranks = Vec::with_capacity(alloc, map.arc_count() as usize)?;
    for arc in 0..map.arc_count() {
        ranks.push_reserved(vec![in alloc; 0; map.arc(arc).len()]?);
    }
    Ok(ranks)
}

// Gives the positions at these places of each arc this rank.
pub(crate) fn raise_all(ranks: &mut [Vec<u32>], places: &[Vec<u32>], rank: u32)
    requires count { length ranks.old ≡ length places.now }
    requires within { (arc : ℕ) → arc < length places.now →
        All (λ at. at < length (list_of ranks.old arc)) (list_of places.now arc) }
    ensures count { length ranks.new ≡ length ranks.old }
    ensures raised { (arc : ℕ) → arc < length places.now →
        AreRaised (list_of ranks.old arc) (list_of ranks.new arc) (list_of places.now arc) rank }
{
    for (arc, list) in places.iter().enumerate() {
        raise(&mut ranks[arc], list.as_slice(), rank);
    }
}

// Gives the positions at these places this rank.
fn raise(ranks: &mut Vec<u32>, places: &[u32], rank: u32)
    requires { All (λ at. at < length ranks.old.items) places.now }
    ensures { AreRaised ranks.old.items ranks.new.items places.now rank }
{
    for at in places {
        ranks[*at as usize] = rank;
    }
}
