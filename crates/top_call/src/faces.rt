//! The form that tells for each feature point of a map the polygons in which it lies.
ghost use Rattle.std.specs.Prelude.{◌≡◌, ◌≢◌, ◌≤◌, ◌<◌, ◌^◌, ◌++◌, ◌⊎◌, [], IsTrue, OnOk, OnErr};
ghost use Rattle.std.specs.Prelude.{length, vec_len, vec_capacity};
ghost use Rattle.outside_io.specs.Causes.{HasCause, Rose};
ghost use Rattle.outside_io.specs.Texts.{AppendsPrefix};
ghost use Rattle.face_parity.specs.Scratch.{IsScratchOf};
ghost use Rattle.top_call.specs.Answers.{IsFaced, IsMapAnswer, faces_text, plain};
ghost use Rattle.top_call.specs.Endings.{HasFault, IsPartWritten, IsSilent, IsWorkStatus, Replies};
ghost use Rattle.top_call.specs.Endings.{Settles};

use crate::demo::no_options;
use crate::loading::load;
use crate::status::Status;
use arc_map::ArcMap;
use face_parity::FaceScratch;
use outside_io::{Failed, Sink, write_all};
use std::alloc::Global;

// How many bytes of lines are gathered before they are written.
const GATHERED: usize = 65536;

// Writes the gathered lines, and then the line.
fn write_through<O: Sink>(lines: &mut Vec<u8>, line: &[u8], out: &mut O) -> Result<(), Failed>
    ensures empty { OnOk result (lines.new.items ≡ []) }
    ensures capacity { vec_capacity lines.old ≤ vec_capacity lines.new }
    ensures few { vec_len lines.new ≤ vec_len lines.old }
    ensures ok { IsTrue O.tells → OnOk result
        (O.written out.new ≡ (O.written out.old ++ lines.old.items) ++ line.now) }
    ensures failed { IsTrue O.tells
        → OnErr result (AppendsPrefix (O.written out.old) (O.written out.new)
        (lines.old.items ++ line.now)) }
    ensures cause { HasCause (O.faults out.old) (O.faults out.new) result }
{
    write_all(out, lines)?;
    lines.clear();
    write_all(out, line)?;
    Ok(())
}

// Adds a line behind the gathered ones. Where there is no room for it, they are written, and then
// the line.
fn add_line<O: Sink>(lines: &mut Vec<u8>, line: &[u8], out: &mut O) -> Result<(), Failed>
    requires room { GATHERED ≤ vec_capacity lines.old }
    requires few { vec_len lines.old ≤ GATHERED }
    ensures room { GATHERED ≤ vec_capacity lines.new }
    ensures few { vec_len lines.new ≤ GATHERED }
    ensures ok { IsTrue O.tells → OnOk result
        (IsPartWritten (O.written out.old) (O.written out.new) (lines.old.items ++ line.now)
        lines.new.items) }
    ensures failed { IsTrue O.tells
        → OnErr result (AppendsPrefix (O.written out.old) (O.written out.new)
        (lines.old.items ++ line.now)) }
    ensures cause { HasCause (O.faults out.old) (O.faults out.new) result }
{
    if line.len() <= GATHERED - lines.len() {
        lines.extend_from_slice(line).unwrap();
        return Ok(());
    }
    write_through(lines, line, out)
}

// Writes the line of each feature point.
fn write_lines<O: Sink>(
    map: &ArcMap,
    scratch: &mut FaceScratch,
    lines: &mut Vec<u8>,
    out: &mut O,
) -> Result<(), Failed>
    requires scratch { IsScratchOf map.now scratch.old }
    requires room { GATHERED ≤ vec_capacity lines.old }
    requires empty { lines.old.items ≡ [] }
    ensures ok { IsTrue O.tells → OnOk result
        (O.written out.new ≡ O.written out.old ++ faces_text map.now) }
    ensures failed { IsTrue O.tells
        → OnErr result (AppendsPrefix (O.written out.old) (O.written out.new)
        (faces_text map.now)) }
    ensures cause { HasCause (O.faults out.old) (O.faults out.new) result }
{
    for point in 0..map.point_count() {
        scratch.write_line(map, point);
        add_line(lines, scratch.line(), out)?;
    }
    write_all(out, lines)?;
    Ok(())
}

// Writes the lines of a map, with memory that is taken first.
fn reply_faces<O: Sink>(alloc: Global, map: &ArcMap, out: &mut O) -> Status
    ensures replies { (result ≡ Status.NoMemory)
        ⊎ Replies O.tells (O.written out.old) (O.written out.new) (faces_text map.now) Status.Done
        result }
    ensures silent { result ≡ Status.NoMemory → out.new ≡ out.old }
    ensures fault { HasFault Status.WriteFault (O.faults out.old) (O.faults out.new) result }
{
    let Ok(mut scratch) = FaceScratch::new(alloc, map) else {
        return Status::NoMemory;
    };
    let Ok(mut lines) = Vec::with_capacity(alloc, GATHERED) else {
        return Status::NoMemory;
    };
    match write_lines(map, &mut scratch, &mut lines, out) {
        Ok(()) => Status::Done,
        Err(_) => Status::WriteFault,
    }
}

/// Writes the line of each feature point of the arranged map of a text: the polygons in which it
/// lies. A text that is refused, or want of memory, ends it before the first write.
pub fn write_faces<O: Sink>(alloc: Global, text: &[u8], out: &mut O) -> Status
    requires { length text.now ≤ 2 ^ 26 }
    ensures status { IsWorkStatus result }
    ensures silent { IsSilent result → out.new ≡ out.old }
    ensures fault { HasFault Status.WriteFault (O.faults out.old) (O.faults out.new) result }
    ensures answers { Settles (IsMapAnswer plain text.now (IsFaced text.now)) O.tells
        (O.written out.old) (O.written out.new) result }
{
    let options = no_options();
    match load(alloc, &options, text) {
        Ok(loaded) => reply_faces(alloc, loaded.partly.map(), out),
        Err(status) => status,
    }
}
