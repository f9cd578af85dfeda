//! The arcs of a map as text.
ghost use Rattle.std.specs.Prelude.{◌≡◌, ◌<◌, ◌≤◌, ◌+◌, ◌*◌, ◌^◌, ◌++◌, codes, map, length};
ghost use Rattle.std.specs.Prelude.{vec_len, IfOk, OnOk, sum_by, drop};
ghost use Rattle.arc_map.specs.Map.{IsArc};
ghost use Rattle.topo_writer.specs.Texts.{behind_commas, position_text, IsDifference};
ghost use Rattle.topo_writer.specs.ArcsText.{arc_text, arcs_text_of, coded_position};
ghost use Rattle.topo_writer.specs.ArcsText.{coded_positions};

use crate::texts::write_position;
use arc_map::{ArcMap, NoMemory};
use grid_exact::Point;
use std::alloc::{AllocError, Global};

/// The text of the value of `arcs` for the map, in its coding (TopoJSON 1.0): `[`, the arcs
/// separated by `,`, and `]`. An arc of one position is written with that position twice. It is at
/// most `2^26` bytes. The only error is want of memory.
pub fn arcs_text(alloc: Global, topology: &ArcMap) -> Result<Vec<u8>, NoMemory>
    ensures value { IfOk result (λ text. text.items ≡ arcs_text_of topology.now) }
    ensures short { IfOk result (λ text. vec_len text ≤ 2 ^ 26) }
{
    let mut out = Vec::new(alloc);
    write_arcs(&mut out, topology)?;
    Ok(out)
}

// Adds the list of the arcs.
fn write_arcs(out: &mut Vec<u8>, topology: &ArcMap) -> Result<(), AllocError>
    ensures value { OnOk result (out.new.items ≡ out.old.items ++ arcs_text_of topology.now) }
    ensures short { OnOk result (vec_len out.new ≤ vec_len out.old + 2 ^ 26) }
{
    out.push(b'[')?;
    if topology.arc_count() > 0 {
        write_arc(out, topology.arc(0), topology.coded())?;
        write_later_arcs(out, topology)?;
    }
    out.push(b']')?;
    Ok(())
}

// Adds each arc but the first, behind a comma.
fn write_later_arcs(out: &mut Vec<u8>, topology: &ArcMap) -> Result<(), AllocError>
    ensures value { OnOk result (out.new.items
        ≡ out.old.items ++ behind_commas
        (map (arc_text topology.now.coded) (drop 1 topology.now.arcs))) }
    ensures short { OnOk result (vec_len out.new
        ≤ vec_len out.old + 54 * sum_by length (drop 1 topology.now.arcs)) }
{
    for k in 1..topology.arc_count() {
        out.push(b',')?;
        write_arc(out, topology.arc(k), topology.coded())?;
    }
    Ok(())
}

// Adds the arc.
fn write_arc(out: &mut Vec<u8>, arc: &[Point], coded: bool) -> Result<(), AllocError>
    requires { IsArc arc.now }
    ensures value { OnOk result (out.new.items ≡ out.old.items ++ arc_text coded arc.now) }
    ensures short { OnOk result (vec_len out.new ≤ vec_len out.old + 53 * length arc.now) }
{
    let first = arc[0];
    let rest = following(arc);
    out.push(b'[')?;
    write_position(out, first.x(), first.y())?;
    write_positions(out, first, rest, coded)?;
    out.push(b']')?;
    Ok(())
}

// The positions that are written after the first: those that follow it, or itself once more where
// none does.
fn following(arc: &[Point]) -> &[Point]
    requires { 0 < length arc.now }
    ensures one { length arc.now ≡ 1 → result.now ≡ arc.now }
    ensures more { 1 < length arc.now → result.now ≡ drop 1 arc.now }
{
    if arc.len() == 1 { arc } else { &arc[1..] }
}

// Adds the positions that follow `first` in its arc, each behind a comma.
fn write_positions(
    out: &mut Vec<u8>,
    first: Point,
    rest: &[Point],
    coded: bool,
) -> Result<(), AllocError>
    ensures value { OnOk result (out.new.items
        ≡ out.old.items ++ behind_commas
        (map position_text (coded_positions coded first rest.now))) }
    ensures short { OnOk result (vec_len out.new ≤ vec_len out.old + 26 * length rest.now) }
{
    let mut before = first;
    for p in rest {
        write_next(out, before, *p, coded)?;
        before = *p;
    }
    Ok(())
}

// Adds a comma, and the position p or its difference from the one before.
fn write_next(out: &mut Vec<u8>, before: Point, p: Point, coded: bool) -> Result<(), AllocError>
    ensures value { OnOk result (out.new.items
        ≡ out.old.items ++ codes "," ++ position_text (coded_position coded before p)) }
    ensures short { OnOk result (vec_len out.new ≤ vec_len out.old + 26) }
{
    let (x, y) = coded_numbers(before, p, coded);
    out.push(b',')?;
    write_position(out, x, y)
}

// The coordinates of p, or how far they are from those of the position before.
fn coded_numbers(before: Point, p: Point, coded: bool) -> (i64, i64)
    ensures across { result.0 ≡ (coded_position coded before p).x }
    ensures up { result.1 ≡ (coded_position coded before p).y }
    ensures across_small { IsDifference result.0 }
    ensures up_small { IsDifference result.1 }
{
    if coded {
        (p.x() - before.x(), p.y() - before.y())
    } else {
        (p.x(), p.y())
    }
}
