//! A text that is written from left to right.

ghost use Rattle.std.specs.Prelude.{◌≡◌, ◌++◌, OnOk};
ghost use Rattle.geo_text.specs.Drafts.{ring_text, written, with_comma, with_point, with_ring};
ghost use Rattle.geo_text.specs.BuiltText.{nothing_written};
ghost use Rattle.geo_text.specs.Written.{comma, draft_of};

use grid_exact::Point;
use std::alloc::{AllocError, Global};
use topo_build::Rings;
use topo_writer::{write_number, write_position};

/// The text so far, with the rings and the points, in the order in which they are written, and the
/// number of the next of each.
#[derive(Drop)]
pub struct Writer<'a> {
    text: Vec<u8>,
    rings: &'a Rings,
    next_ring: usize,
    points: &'a [Point],
    next_point: usize,
}

impl<'a> Writer<'a> {
    /// Nothing yet.
    pub fn new(alloc: Global, rings: &'a Rings, points: &'a [Point]) -> Writer<'a>
        ensures { draft_of result ≡ nothing_written rings.now points.now }
    {
        Writer {
            text: Vec::new(alloc),
            rings,
            next_ring: 0,
            points,
            next_point: 0,
        }
    }

    /// The text.
    pub fn into_text(self) -> Vec<u8>
        ensures { result.items ≡ (draft_of self.entry).text }
    {
        self.text
    }

    /// Writes these bytes.
    pub fn write(&mut self, bytes: &[u8]) -> Result<(), AllocError>
        ensures { OnOk result (draft_of self.new ≡ written bytes.now (draft_of self.old)) }
    {
        self.text.extend_from_slice(bytes)?;
        Ok(())
    }

    /// Writes a comma, but before the first.
    pub fn comma(&mut self, first: bool) -> Result<(), AllocError>
        ensures { OnOk result (draft_of self.new ≡ with_comma first (draft_of self.old)) }
    {
        if first {
            return Ok(());
        }
        self.write(b",")
    }

    /// Writes the next point, where one is left.
    pub fn point(&mut self) -> Result<(), AllocError>
        ensures { OnOk result (draft_of self.new ≡ with_point (draft_of self.old)) }
    {
        if self.next_point < self.points.len() {
            let point = self.points[self.next_point];
            write_position(&mut self.text, point.x(), point.y())?;
            self.next_point += 1;
        }
        Ok(())
    }

    /// Writes the next ring, where one is left.
    pub fn ring(&mut self) -> Result<(), AllocError>
        ensures { OnOk result (draft_of self.new ≡ with_ring (draft_of self.old)) }
    {
        if self.next_ring < self.rings.count() {
            write_ring(&mut self.text, self.rings.ring(self.next_ring))?;
            self.next_ring += 1;
        }
        Ok(())
    }
}

/// Adds the list of the references.
fn write_ring(out: &mut Vec<u8>, ring: &[i32]) -> Result<(), AllocError>
    ensures { OnOk result (out.new.items ≡ out.old.items ++ ring_text ring.now) }
{
    out.push(b'[')?;
    for (k, reference) in ring.iter().enumerate() {
        write_comma(out, k)?;
        write_number(out, i64::from(*reference))?;
    }
    out.push(b']')?;
    Ok(())
}

/// Adds a comma before each entry but the first, number 0.
fn write_comma(out: &mut Vec<u8>, k: usize) -> Result<(), AllocError>
    ensures { OnOk result (out.new.items ≡ out.old.items ++ comma k) }
{
    if k > 0 {
        out.push(b',')?;
    }
    Ok(())
}
