//! The lattice of squares on which a coverage lies, and the text of the coverage.
ghost use Rattle.std.specs.Prelude.{◌≡◌, ◌<◌, ◌≤◌, ◌+◌, ◌*◌, ◌/◌, ◌^◌, ◌++◌, pos, negsuc, IfOk};
ghost use Rattle.std.specs.Prelude.{OnOk, vec_len};
ghost use Rattle.topo_writer.specs.Texts.{position_text};
ghost use Rattle.map_gen.specs.Make.{made, across_count, arc_count, left_side, offset, position};
ghost use Rattle.map_gen.specs.Make.{wavy_text, town_text, ring_text, cell_text, list_of};
ghost use Rattle.map_gen.specs.MadeMap.{made_map};
ghost use Rattle.topo_writer.specs.Reading.{ReadsAs};
ghost use Rattle.map_gen.specs.Lattice.{IsLattice, IsSmall, IsOffset};

use crate::shifts::shifts;
use arc_map::NoMemory;
use std::alloc::{AllocError, Global};
use topo_writer::{write_number, write_position};

// A coverage: how many rows and columns of cells it has, and the shifts of the inner positions of
// its arcs.
#[derive(Drop)]
struct Lattice {
    rows: u32,
    cols: u32,
    seed: u32,
    shifts: Vec<i64>,
}

/// The text of a coverage of so many rows and columns of cells with wavy borders, and of towns
/// close to them, as a topology (TopoJSON 1.0) without a transform. The same seed gives the same
/// text. It is at most `2^26` bytes, and reads as the map of the coverage. The only error is want
/// of memory.
pub fn make(alloc: Global, rows: u32, cols: u32, seed: u32) -> Result<Vec<u8>, NoMemory>
    requires rows { (1 ≤ rows) × (rows ≤ 100) }
    requires cols { (1 ≤ cols) × (cols ≤ 100) }
    requires seed { seed ≤ 65536 }
    ensures value { IfOk result (λ text. text.items ≡ made rows cols seed) }
    ensures reads { IfOk result (λ text. ReadsAs text.items (made_map rows cols seed)) }
    ensures short { IfOk result (λ text. vec_len text ≤ 2 ^ 26) }
{
    let lattice = new_lattice(alloc, rows, cols, seed)?;
    let mut out = Vec::new(alloc);
    lattice.write(&mut out)?;
    Ok(out)
}

// The lattice with its shifts.
fn new_lattice(alloc: Global, rows: u32, cols: u32, seed: u32) -> Result<Lattice, AllocError>
    requires rows { (1 ≤ rows) × (rows ≤ 100) }
    requires cols { (1 ≤ cols) × (cols ≤ 100) }
    requires seed { seed ≤ 65536 }
    ensures value { IfOk result (λ lattice. IsLattice rows cols seed lattice) }
{
    let count = (rows + 1) * cols + rows * (cols + 1);
    let shifts = shifts(alloc, seed, 7 * count as usize)?;
    Ok(Lattice {
        rows,
        cols,
        seed,
        shifts,
    })
}

impl Lattice {
    // Adds the text of the coverage.
    fn write(&self, out: &mut Vec<u8>) -> Result<(), AllocError>
        requires { IsLattice self.now.rows self.now.cols self.now.seed self.now }
        ensures value { OnOk result (out.new.items ≡ out.old.items
            ++ made self.now.rows self.now.cols self.now.seed) }
        ensures short { OnOk result (vec_len out.new ≤ vec_len out.old + 2 ^ 26) }
    {
        out.extend_from_slice(
            b"{\"type\":\"Topology\",\"objects\":{\"cells\":{\"type\":\"GeometryCollection\",\"geometries\":",
        )?;
        self.write_cells(out)?;
        out.extend_from_slice(b"},\"towns\":{\"type\":\"MultiPoint\",\"coordinates\":")?;
        self.write_towns(out)?;
        out.extend_from_slice(b"}},\"arcs\":")?;
        self.write_arcs(out)?;
        out.push(b'}')?;
        Ok(())
    }

    // Adds the list of the cells.
    fn write_cells(&self, out: &mut Vec<u8>) -> Result<(), AllocError>
        requires { IsLattice self.now.rows self.now.cols self.now.seed self.now }
        ensures value { OnOk result (out.new.items ≡ out.old.items
            ++ list_of (cell_text self.now.rows self.now.cols) (self.now.rows * self.now.cols)) }
        ensures short { OnOk result (vec_len out.new
            ≤ vec_len out.old + 100 * (self.now.rows * self.now.cols) + 2) }
    {
        out.push(b'[')?;
        self.write_cell(out, 0)?;
        for cell in 1..self.cell_count() {
            out.push(b',')?;
            self.write_cell(out, cell)?;
        }
        out.push(b']')?;
        Ok(())
    }

    // Adds the cell as a polygon.
    #[tactic(auto, unfolding(crate::specs::Make::cell_text))]
    fn write_cell(&self, out: &mut Vec<u8>, cell: u32) -> Result<(), AllocError>
        requires lattice { IsLattice self.now.rows self.now.cols self.now.seed self.now }
        requires cell { cell < self.now.rows * self.now.cols }
        ensures value { OnOk result (out.new.items ≡ out.old.items
            ++ cell_text self.now.rows self.now.cols cell) }
        ensures short { OnOk result (vec_len out.new ≤ vec_len out.old + 99) }
    {
        out.extend_from_slice(b"{\"type\":\"Polygon\",\"arcs\":[")?;
        self.write_ring(out, cell)?;
        out.extend_from_slice(b"]}")?;
        Ok(())
    }

    // Adds the ring of the cell: the arcs below it, to its right, and backwards those above it and
    // to its left.
    fn write_ring(&self, out: &mut Vec<u8>, cell: u32) -> Result<(), AllocError>
        requires lattice { IsLattice self.now.rows self.now.cols self.now.seed self.now }
        requires cell { cell < self.now.rows * self.now.cols }
        ensures value { OnOk result (out.new.items ≡ out.old.items
            ++ ring_text self.now.rows self.now.cols cell) }
        ensures short { OnOk result (vec_len out.new ≤ vec_len out.old + 49) }
    {
        let (below, right, above, left) = self.ring(cell);
        out.push(b'[')?;
        write_number(out, below)?;
        out.push(b',')?;
        write_number(out, right)?;
        out.push(b',')?;
        write_number(out, above)?;
        out.push(b',')?;
        write_number(out, left)?;
        out.push(b']')?;
        Ok(())
    }

    // The arcs of the ring of the cell, as TopoJSON numbers them: arc `i` backwards is `-1 - i`.
    fn ring(&self, cell: u32) -> (i64, i64, i64, i64)
        requires lattice { IsLattice self.now.rows self.now.cols self.now.seed self.now }
        requires cell { cell < self.now.rows * self.now.cols }
        ensures below { result.0 ≡ pos cell }
        ensures right { result.1 ≡ pos (left_side self.now.rows self.now.cols cell + 1) }
        ensures above { result.2 ≡ negsuc (cell + self.now.cols) }
        ensures left { result.3 ≡ negsuc (left_side self.now.rows self.now.cols cell) }
        ensures few_cells { cell < 10000 }
        ensures few_arcs { left_side self.now.rows self.now.cols cell < 40000 }
    {
        let left = i64::from(self.across_count() + cell + cell / self.cols);
        let above = i64::from(cell + self.cols);
        (i64::from(cell), left + 1, -1 - above, -1 - left)
    }

    // Adds the list of the towns.
    fn write_towns(&self, out: &mut Vec<u8>) -> Result<(), AllocError>
        requires { IsLattice self.now.rows self.now.cols self.now.seed self.now }
        ensures value { OnOk result (out.new.items ≡ out.old.items
            ++ list_of (town_text self.now.rows self.now.cols self.now.seed)
            (across_count self.now.rows self.now.cols)) }
        ensures short { OnOk result (vec_len out.new
            ≤ vec_len out.old + 26 * across_count self.now.rows self.now.cols + 2) }
    {
        out.push(b'[')?;
        self.write_town(out, 0)?;
        for arc in 1..self.across_count() {
            out.push(b',')?;
            self.write_town(out, arc)?;
        }
        out.push(b']')?;
        Ok(())
    }

    // Adds the town of the arc.
    #[tactic(auto, unfolding(crate::specs::Make::town_text))]
    fn write_town(&self, out: &mut Vec<u8>, arc: u32) -> Result<(), AllocError>
        requires lattice { IsLattice self.now.rows self.now.cols self.now.seed self.now }
        requires arc { arc < across_count self.now.rows self.now.cols }
        ensures value { OnOk result (out.new.items ≡ out.old.items
            ++ town_text self.now.rows self.now.cols self.now.seed arc) }
        ensures short { OnOk result (vec_len out.new ≤ vec_len out.old + 25) }
    {
        let (x, y) = self.position(arc, 4);
        write_position(out, x, y + 1)
    }

    // Adds the list of the arcs.
    fn write_arcs(&self, out: &mut Vec<u8>) -> Result<(), AllocError>
        requires { IsLattice self.now.rows self.now.cols self.now.seed self.now }
        ensures value { OnOk result (out.new.items ≡ out.old.items
            ++ list_of (wavy_text self.now.rows self.now.cols self.now.seed)
            (arc_count self.now.rows self.now.cols)) }
        ensures short { OnOk result (vec_len out.new
            ≤ vec_len out.old + 237 * arc_count self.now.rows self.now.cols + 2) }
    {
        out.push(b'[')?;
        self.write_arc(out, 0)?;
        for arc in 1..self.arc_count() {
            out.push(b',')?;
            self.write_arc(out, arc)?;
        }
        out.push(b']')?;
        Ok(())
    }

    // Adds the arc.
    fn write_arc(&self, out: &mut Vec<u8>, arc: u32) -> Result<(), AllocError>
        requires lattice { IsLattice self.now.rows self.now.cols self.now.seed self.now }
        requires arc { arc < arc_count self.now.rows self.now.cols }
        ensures value { OnOk result (out.new.items ≡ out.old.items
            ++ wavy_text self.now.rows self.now.cols self.now.seed arc) }
        ensures short { OnOk result (vec_len out.new ≤ vec_len out.old + 236) }
    {
        out.push(b'[')?;
        self.write_arc_position(out, arc, 0)?;
        for k in 1..9 {
            out.push(b',')?;
            self.write_arc_position(out, arc, k)?;
        }
        out.push(b']')?;
        Ok(())
    }

    // Adds position k of the arc.
    fn write_arc_position(&self, out: &mut Vec<u8>, arc: u32, k: u32) -> Result<(), AllocError>
        requires lattice { IsLattice self.now.rows self.now.cols self.now.seed self.now }
        requires arc { arc < arc_count self.now.rows self.now.cols }
        requires position { k < 9 }
        ensures value { OnOk result (out.new.items ≡ out.old.items
            ++ position_text (position self.now.rows self.now.cols self.now.seed arc k)) }
        ensures short { OnOk result (vec_len out.new ≤ vec_len out.old + 25) }
    {
        let (x, y) = self.position(arc, k);
        write_position(out, x, y)
    }

    // Position k of the arc.
    fn position(&self, arc: u32, k: u32) -> (i64, i64)
        requires lattice { IsLattice self.now.rows self.now.cols self.now.seed self.now }
        requires arc { arc < arc_count self.now.rows self.now.cols }
        requires position { k < 9 }
        ensures across { result.0 ≡ (position self.now.rows self.now.cols self.now.seed arc k).x }
        ensures up { result.1 ≡ (position self.now.rows self.now.cols self.now.seed arc k).y }
        ensures across_small { IsSmall result.0 }
        ensures up_small { IsSmall result.1 }
    {
        let across = self.across_count();
        let off = self.offset(arc, k);
        if arc < across {
            let x = i64::from(64 * (arc % self.cols) + 8 * k);
            let y = i64::from(64 * self.line(arc));
            (x, y + off)
        } else {
            let up = arc - across;
            let x = i64::from(64 * (up % (self.cols + 1)));
            let y = i64::from(64 * (up / (self.cols + 1)) + 8 * k);
            (x + off, y)
        }
    }

    // The line of the lattice on which the arc runs across.
    fn line(&self, arc: u32) -> u32
        requires lattice { IsLattice self.now.rows self.now.cols self.now.seed self.now }
        requires arc { arc < across_count self.now.rows self.now.cols }
        ensures value { result ≡ arc / self.now.cols }
        ensures within { result ≤ 100 }
    {
        arc / self.cols
    }

    // How far position k of the arc is off its side.
    fn offset(&self, arc: u32, k: u32) -> i64
        requires lattice { IsLattice self.now.rows self.now.cols self.now.seed self.now }
        requires arc { arc < arc_count self.now.rows self.now.cols }
        requires position { k < 9 }
        ensures value { result ≡ offset self.now.seed arc k }
        ensures small { IsOffset result }
    {
        if 0 < k && k < 8 {
            self.shifts[(7 * arc + k - 1) as usize]
        } else {
            0
        }
    }

    // How many cells there are.
    fn cell_count(&self) -> u32
        requires { IsLattice self.now.rows self.now.cols self.now.seed self.now }
        ensures value { result ≡ self.now.rows * self.now.cols }
        ensures some { 1 ≤ result }
        ensures few { result ≤ 10000 }
    {
        self.rows * self.cols
    }

    // How many arcs run across.
    fn across_count(&self) -> u32
        requires { IsLattice self.now.rows self.now.cols self.now.seed self.now }
        ensures value { result ≡ across_count self.now.rows self.now.cols }
        ensures some { 1 ≤ result }
        ensures few { result ≤ 10100 }
    {
        (self.rows + 1) * self.cols
    }

    // How many arcs there are.
    fn arc_count(&self) -> u32
        requires { IsLattice self.now.rows self.now.cols self.now.seed self.now }
        ensures value { result ≡ arc_count self.now.rows self.now.cols }
        ensures some { 1 ≤ result }
        ensures few { result ≤ 20200 }
    {
        self.across_count() + self.rows * (self.cols + 1)
    }
}
