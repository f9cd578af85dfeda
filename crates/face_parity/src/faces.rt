//! The lines of `faces`.
ghost use Rattle.std.specs.Prelude.{◌≡◌, ◌<◌, ◌≤◌, ◌+◌, ◌*◌, ◌^◌, ◌++◌, ◌∷◌, ℕ, List, false, IfOk};
ghost use Rattle.std.specs.Prelude.{length, filter, slice_index, vec_len, vec_capacity, codes};
ghost use Rattle.std.specs.Prelude.{decimal};
ghost use Rattle.std.specs.Fmt.{signed_decimal};
ghost use Rattle.grid_exact.specs.Walks.{differ};
ghost use Rattle.arc_map.specs.Arcs.{is_inside};
ghost use Rattle.arc_map.specs.Arranged.{arc_at};
ghost use Rattle.sweep_index.specs.Offsets.{offset_of};
ghost use Rattle.face_parity.specs.Bounds.{IsOffsetOf};
ghost use Rattle.face_parity.specs.Cells.{AreCellsOf};
ghost use Rattle.face_parity.specs.Celled.{cell_at, in_cell, run_at};
ghost use Rattle.face_parity.specs.Parities.{pass_oddly};
ghost use Rattle.face_parity.specs.Faces.{IsFloored, turns};
ghost use Rattle.face_parity.specs.Naming.{AreUnder, refs_over};
ghost use Rattle.face_parity.specs.Lines.{line_of, numbers_text, still};
ghost use Rattle.face_parity.specs.Namings.{AreNamingsOf};
ghost use Rattle.face_parity.specs.Tally.{IsTally, is_odd_at};
ghost use Rattle.face_parity.specs.Runs.{IsRunIn};
ghost use Rattle.face_parity.specs.Scratch.{IsScratchOf, line_in};

use crate::bounds::Offset;
use crate::cells::Cells;
use crate::floors::floored;
use crate::namings::Namings;
use crate::runs::Run;
use crate::tally::Tally;
use crate::text::{put, put_coordinate, put_number};
use arc_map::{ArcMap, NoMemory};
use grid_exact::Point;
use std::alloc::Global;

// The longest line without the numbers of polygons, and the longest number of a polygon with its
// space, in bytes.
const LINE: usize = 64;

const NUMBER: usize = 8;

/// What is made once for the points of a map: the runs of its arcs by the cells that they reach,
/// the polygons that name each arc, one parity for each polygon, and room for the longest line.
#[derive(Drop)]
pub struct FaceScratch {
    cells: Cells,
    namings: Namings,
    tally: Tally,
    text: Vec<u8>,
}

impl FaceScratch {
    /// The scratch for this map. The only error is want of memory.
    pub fn new(alloc: Global, topology: &ArcMap) -> Result<FaceScratch, NoMemory>
        ensures { IfOk result (IsScratchOf topology.now) }
    {
        let polygons = topology.polygon_count() as usize;
        let (unsorted, floors) = floored(alloc, topology)?;
        let namings = Namings::build(alloc, unsorted, topology.arc_count())?;
        let cells = Cells::build(alloc, topology, floors)?;
        let tally = Tally::new(alloc, polygons)?;
        let text = Vec::with_capacity(alloc, LINE + NUMBER * polygons)?;
        Ok(FaceScratch {
            cells,
            namings,
            tally,
            text,
        })
    }

    /// Writes the line of `faces` for the point number `k`, with its line feed: `point K X Y in`,
    /// and the numbers of the polygons in which it lies, rising, each after a space, or ` none`.
    /// The scratch must be that of this map. No memory is taken.
    pub fn write_line(&mut self, topology: &ArcMap, k: u32)
        requires scratch { IsScratchOf topology.now self.old }
        requires point { k < length topology.now.points }
        ensures line { line_in self.new ≡ line_of topology.now k }
        ensures again { IsScratchOf topology.now self.new }
    {
        let _points = topology.point_count();
        let p = topology.point(k);
        let at = Offset::of(p);
        self.tally.clear();
        turn_crossed(&mut self.tally, &self.cells, &self.namings, topology, p, at);
        self.tally.sort();
        self.text.clear();
        write_point(&mut self.text, k, p);
        write_faces(&mut self.text, &self.tally);
        put(&mut self.text, b"\n");
    }

    /// The line that was written last.
    pub fn line(&self) -> &[u8]
        ensures { result.now ≡ line_in self.now }
    {
        self.text.as_slice()
    }
}

// Turns each polygon as often as edges of the arcs that it names are crossed from p, by parity.
fn turn_crossed(
    tally: &mut Tally,
    cells: &Cells,
    namings: &Namings,
    topology: &ArcMap,
    p: Point,
    at: Offset,
)
    requires tally { IsTally tally.old }
    requires polygons { length tally.old.odd.items ≡ length topology.now.polygons }
    requires even { (k : ℕ) → is_odd_at tally.old k ≡ false }
    requires cells { AreCellsOf topology.now cells.now }
    requires namings { AreNamingsOf topology.now namings.now }
    requires under { AreUnder cells.now.floors.arcs.items namings.now.namings.items }
    requires at { IsOffsetOf p at }
    ensures tally { IsTally tally.new }
    ensures polygons { length tally.new.odd.items ≡ length tally.old.odd.items }
    ensures odd { (k : ℕ) → k < length topology.now.polygons
        → is_odd_at tally.new k ≡ is_inside p topology.now k }
{
    turn_celled(tally, cells, namings, topology, p, at);
    turn_wide(tally, cells, namings, topology, p, at);
}

// The same for the runs in the cell of p alone.
fn turn_celled(
    tally: &mut Tally,
    cells: &Cells,
    namings: &Namings,
    topology: &ArcMap,
    p: Point,
    at: Offset,
)
    requires tally { IsTally tally.old }
    requires polygons { length tally.old.odd.items ≡ length topology.now.polygons }
    requires cells { AreCellsOf topology.now cells.now }
    requires namings { AreNamingsOf topology.now namings.now }
    requires under { AreUnder cells.now.floors.arcs.items namings.now.namings.items }
    requires at { IsOffsetOf p at }
    ensures tally { IsTally tally.new }
    ensures polygons { length tally.new.odd.items ≡ length tally.old.odd.items }
    ensures odd { (k : ℕ) → is_odd_at tally.new k
        ≡ differ (is_odd_at tally.old k) (pass_oddly (λ c.
        turns topology.now p (refs_over namings.now.namings.items at.y k)
        (run_at cells.now.runs.items c.run)) (in_cell (cell_at cells.now.width cells.now.height at)
        cells.now.celled.items)) }
{
    let found = cells.at(at);
    for celled in found {
        turn_run(tally, namings, topology, cells.run(celled.run), p, at);
    }
}

// The same for the wide runs alone.
fn turn_wide(
    tally: &mut Tally,
    cells: &Cells,
    namings: &Namings,
    topology: &ArcMap,
    p: Point,
    at: Offset,
)
    requires tally { IsTally tally.old }
    requires polygons { length tally.old.odd.items ≡ length topology.now.polygons }
    requires cells { AreCellsOf topology.now cells.now }
    requires namings { AreNamingsOf topology.now namings.now }
    requires under { AreUnder cells.now.floors.arcs.items namings.now.namings.items }
    requires at { IsOffsetOf p at }
    ensures tally { IsTally tally.new }
    ensures polygons { length tally.new.odd.items ≡ length tally.old.odd.items }
    ensures odd { (k : ℕ) → is_odd_at tally.new k
        ≡ differ (is_odd_at tally.old k) (pass_oddly (λ n.
        turns topology.now p (refs_over namings.now.namings.items at.y k)
        (run_at cells.now.runs.items n)) cells.now.wide.items) }
{
    let wide = cells.wide();
    for number in wide {
        turn_run(tally, namings, topology, cells.run(*number), p, at);
    }
}

// Turns each polygon that names the arc of the run, as often as it does in parts whose floor is not
// above p, if an odd number of edges of the run are crossed from p.
fn turn_run(tally: &mut Tally, namings: &Namings, topology: &ArcMap, run: Run, p: Point, at: Offset)
    requires tally { IsTally tally.old }
    requires polygons { length tally.old.odd.items ≡ length topology.now.polygons }
    requires namings { AreNamingsOf topology.now namings.now }
    requires run { IsRunIn (arc_at topology.now run.arc) run }
    requires at { IsOffsetOf p at }
    ensures tally { IsTally tally.new }
    ensures polygons { length tally.new.odd.items ≡ length tally.old.odd.items }
    ensures odd { (k : ℕ) → IsFloored (refs_over namings.now.namings.items at.y k) at.y run
        → is_odd_at tally.new k ≡ differ (is_odd_at tally.old k)
        (turns topology.now p (refs_over namings.now.namings.items at.y k) run) }
{
    if run.floor > at.y {
        return;
    }
    if !run.is_crossed_oddly(topology, p, at) {
        return;
    }
    tally.turn_all(namings.of_arc(run.arc), at.y);
}

// Adds `point K X Y in`.
fn write_point(text: &mut Vec<u8>, k: u32, p: Point)
    requires number { k < 2 ^ 20 }
    requires empty { vec_len text.old ≡ 0 }
    requires room { 64 ≤ vec_capacity text.old }
    ensures value { text.new.items ≡ text.old.items ++ codes "point " ++ decimal k ++ codes " "
        ++ signed_decimal p.x ++ codes " " ++ signed_decimal p.y ++ codes " in" }
    ensures short { vec_len text.new ≤ 56 }
    ensures capacity { vec_capacity text.old ≤ vec_capacity text.new }
{
    put(text, b"point ");
    put_number(text, k);
    put(text, b" ");
    put_coordinate(text, p.x());
    put(text, b" ");
    put_coordinate(text, p.y());
    put(text, b" in");
}

// Adds the numbers of the odd polygons, each after a space, or ` none`.
fn write_faces(text: &mut Vec<u8>, tally: &Tally)
    requires tally { IsTally tally.now }
    requires few { length tally.now.odd.items ≤ 2 ^ 20 }
    requires room { vec_len text.old + 6 + 8 * length tally.now.odd.items ≤ vec_capacity text.old }
    ensures value { text.new.items ≡ text.old.items
        ++ numbers_text (filter (is_odd_at tally.now) tally.now.turned.items) }
    ensures room { vec_len text.new + 1 ≤ vec_capacity text.new }
    ensures capacity { vec_capacity text.old ≤ vec_capacity text.new }
{
    let turned = tally.turned();
    let mut some = false;
    for k in turned {
        some = visit(text, tally, *k, some);
    }
    if !some {
        put(text, b" none");
    }
}

// Adds the number of the polygon where it is odd. Tells whether some number is written now.
fn visit(text: &mut Vec<u8>, tally: &Tally, k: u32, some: bool) -> bool
    requires polygon { k < length tally.now.odd.items }
    requires few { k < 2 ^ 20 }
    requires room { vec_len text.old + 8 ≤ vec_capacity text.old }
    ensures value { (ns : List ℕ) → text.new.items ++ still result (filter (is_odd_at tally.now) ns)
        ≡ text.old.items ++ still some (filter (is_odd_at tally.now) (k ∷ ns)) }
    ensures short { vec_len text.new ≤ vec_len text.old + 8 }
    ensures capacity { vec_capacity text.old ≤ vec_capacity text.new }
{
    if tally.is_odd(k) {
        write_face(text, k);
        true
    } else {
        some
    }
}

// Adds the number of a polygon after a space.
fn write_face(text: &mut Vec<u8>, k: u32)
    requires polygon { k < 2 ^ 20 }
    requires room { vec_len text.old + 8 ≤ vec_capacity text.old }
    ensures value { text.new.items ≡ text.old.items ++ codes " " ++ decimal k }
    ensures short { vec_len text.new ≤ vec_len text.old + 8 }
    ensures capacity { vec_capacity text.old ≤ vec_capacity text.new }
{
    put(text, b" ");
    put_number(text, k);
}
