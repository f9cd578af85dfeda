//! Rings of arcs, and their text.
ghost use Rattle.std.specs.Prelude.{◌≡◌, ◌++◌, IfOk, OnOk, map};
ghost use Rattle.topo_writer.specs.Texts.{list_text};
ghost use Rattle.dissolve.specs.Texts.{ring_text, rings_text};
ghost use Rattle.dissolve.specs.Walk.{references, rings_of};
ghost use Rattle.dissolve.specs.Written.{comma};

use crate::step::Step;
use arc_map::NoMemory;
use std::alloc::{AllocError, Global};
use std::marker::Model;
use topo_writer::write_number;

/// Closed lines of arcs. Contracts see for each the list of its arc references, as TopoJSON numbers
/// them: `k` for arc `k` forwards, `-1 - k` for arc `k` backwards.
#[derive(Drop)]
pub struct Rings {
    rings: Vec<Vec<Step>>,
}

impl Model for Rings {
    ghost use Rattle.std.specs.Prelude.{List, ℤ};
    ghost use Rattle.dissolve.specs.Walk.{rings_of};

    ghost Value = { List (List ℤ) };

    ghost view = { λ r. rings_of r.rings.items };
}

impl Rings {
    // These rings.
    pub(crate) fn new(rings: Vec<Vec<Step>>) -> Rings
        ensures { result ≡ rings_of rings.items }
    {
        Rings { rings }
    }

    /// The text of the rings as a geometry (TopoJSON 1.0): `{"type":"MultiLineString","arcs":`, the
    /// list of the rings, each the list of its references in decimals, and `}`; there is no white
    /// space. The only error is want of memory.
    pub fn text(&self, alloc: Global) -> Result<Vec<u8>, NoMemory>
        ensures { IfOk result (λ text. text.items ≡ rings_text self.now) }
    {
        let mut out = Vec::new(alloc);
        write_text(&mut out, self.rings.as_slice())?;
        Ok(out)
    }
}

// Adds the geometry of the rings.
fn write_text(out: &mut Vec<u8>, rings: &[Vec<Step>]) -> Result<(), AllocError>
    ensures { OnOk result (out.new.items ≡ out.old.items ++ rings_text (rings_of rings.now)) }
{
    out.extend_from_slice(b"{\"type\":\"MultiLineString\",\"arcs\":")?;
    write_rings(out, rings)?;
    out.push(b'}')?;
    Ok(())
}

// Adds the list of the rings.
fn write_rings(out: &mut Vec<u8>, rings: &[Vec<Step>]) -> Result<(), AllocError>
    ensures { OnOk result (out.new.items
        ≡ out.old.items ++ list_text (map ring_text (rings_of rings.now))) }
{
    out.push(b'[')?;
    for (k, ring) in rings.iter().enumerate() {
        write_comma(out, k)?;
        write_ring(out, ring.as_slice())?;
    }
    out.push(b']')?;
    Ok(())
}

// Adds the list of the references.
fn write_ring(out: &mut Vec<u8>, ring: &[Step]) -> Result<(), AllocError>
    ensures { OnOk result (out.new.items ≡ out.old.items ++ ring_text (references ring.now)) }
{
    out.push(b'[')?;
    for (k, step) in ring.iter().enumerate() {
        write_comma(out, k)?;
        write_number(out, step.number())?;
    }
    out.push(b']')?;
    Ok(())
}

// Adds a comma before each entry but the first, number 0.
fn write_comma(out: &mut Vec<u8>, k: usize) -> Result<(), AllocError>
    ensures { OnOk result (out.new.items ≡ out.old.items ++ comma k) }
{
    if k > 0 {
        out.push(b',')?;
    }
    Ok(())
}
