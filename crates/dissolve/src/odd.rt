//! The arcs that polygons name an odd number of times in sum, as marks.
ghost use Rattle.std.specs.Prelude.{◌≡◌, ◌≢◌, ◌<◌, ◌==◌, ◌&&◌, ℕ, false, IfOk, All, get_or, length};
ghost use Rattle.grid_exact.specs.Walks.{differ};
ghost use Rattle.face_parity.specs.Parities.{pass_oddly};
ghost use Rattle.dissolve.specs.Odd.{has_edge, odd_arcs};
ghost use Rattle.dissolve.specs.Unused.{marked};

use arc_map::ArcMap;
use std::alloc::{AllocError, Global};

// For each arc of the map whether it has an edge and these polygons name it an odd number of times
// in sum.
pub(crate) fn odd_marks(
    alloc: Global,
    map: &ArcMap,
    polygons: &[u32],
) -> Result<Vec<bool>, AllocError>
    requires { All (λ k. k < length map.now.polygons) polygons.now }
    ensures count { IfOk result (λ marks. length marks.items ≡ length map.now.arcs) }
    ensures value { IfOk result (λ marks. marked marks.items ≡ odd_arcs map.now polygons.now) }
{
    let mut marks = vec![in alloc; false; map.arc_count() as usize]?;
    for k in polygons {
        turn_all(&mut marks, map.polygon(*k));
    }
    clear_edgeless(&mut marks, map);
    Ok(marks)
}

// Turns the mark of each of the arcs.
fn turn_all(marks: &mut Vec<bool>, arcs: &[u32])
    requires { All (λ arc. arc < length marks.old.items) arcs.now }
    ensures count { length marks.new.items ≡ length marks.old.items }
    ensures odd { (k : ℕ) → get_or marks.new.items k false
        ≡ differ (get_or marks.old.items k false) (pass_oddly (λ arc. arc == k) arcs.now) }
{
    for arc in arcs {
        turn(marks, *arc);
    }
}

// Turns the mark of the arc.
fn turn(marks: &mut Vec<bool>, arc: u32)
    requires { arc < length marks.old.items }
    ensures count { length marks.new.items ≡ length marks.old.items }
    ensures odd { (k : ℕ) → get_or marks.new.items k false
        ≡ differ (get_or marks.old.items k false) (arc == k) }
{
    let odd = marks[arc as usize];
    marks[arc as usize] = !odd;
}

// Takes away the marks of the arcs without an edge.
fn clear_edgeless(marks: &mut Vec<bool>, map: &ArcMap)
    requires { length marks.old.items ≡ length map.now.arcs }
    ensures count { length marks.new.items ≡ length marks.old.items }
    ensures left { (k : ℕ) → get_or marks.new.items k false
        ≡ (has_edge map.now k && get_or marks.old.items k false) }
{
    for arc in 0..map.arc_count() {
        clear_if_edgeless(marks, map, arc);
    }
}

// Takes away the mark of the arc if it has no edge.
fn clear_if_edgeless(marks: &mut Vec<bool>, map: &ArcMap, arc: u32)
    requires count { length marks.old.items ≡ length map.now.arcs }
    requires arc { arc < length map.now.arcs }
    ensures count { length marks.new.items ≡ length marks.old.items }
    ensures here { get_or marks.new.items arc false
        ≡ (has_edge map.now arc && get_or marks.old.items arc false) }
    ensures other { (k : ℕ) → k ≢ arc →
        get_or marks.new.items k false ≡ get_or marks.old.items k false }
{
    if map.arc(arc).len() < 2 {
        marks[arc as usize] = false;
    }
}
