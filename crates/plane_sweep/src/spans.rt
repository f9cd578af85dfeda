//! The edges of a map as spans from their lower end to their higher one.
ghost use Rattle.std.specs.Prelude.{◌≡◌, ◌↔◌, ◌<◌, ◌≤◌, ◌^◌, ◌+◌, ◌==◌, ◌||◌, IsTrue, IfOk, OnOk};
ghost use Rattle.std.specs.Prelude.{length, slice_index_or};
ghost use Rattle.arc_map.specs.Arranged.{nowhere};
ghost use Rattle.arc_map.specs.Map.{IsArc};
ghost use Rattle.plane_sweep.specs.Meeting.{MayJoin};
ghost use Rattle.plane_sweep.specs.Spans.{AreSpansBefore, AreSpansOf, IsSpanAt, no_corner, no_span};
ghost use Rattle.plane_sweep.specs.Spans.{span_of, spans_in};

use arc_map::{ArcMap, EdgeRef, NoMemory};
use grid_exact::{Frame, Point, area, order, precedes};
use std::alloc::{AllocError, Global};
use std::cmp::Ordering;

// A position of an arc: its arc, its number in the arc, whether it is the first or the last there,
// and its place.
#[derive(Clone, Copy, PartialEq, Eq)]
pub struct Corner {
    pub arc: u32,
    pub at: u32,
    pub is_end: bool,
    pub place: Point,
}

// An edge from its lower end, which is before the other, to its higher one.
#[derive(Clone, Copy)]
pub struct Span {
    pub low: Corner,
    pub high: Corner,
    pub edge: EdgeRef,
}

// Whether edges may join where the corners are.
pub fn may_join(v: &Corner, w: &Corner) -> bool
    ensures { IsTrue result ↔ MayJoin v.now w.now }
{
    *v == *w || (v.is_end && w.is_end)
}

// The edges of the map, in the order of their lower ends; those that begin at one place from the
// lowest to the highest.
pub fn spans_of(alloc: Global, map: &ArcMap) -> Result<Vec<Span>, NoMemory>
    ensures { IfOk result (λ spans. AreSpansOf map.now spans.items) }
{
    let mut spans = Vec::new(alloc);
    for arc in 0..map.arc_count() {
        push_arc(&mut spans, map, arc)?;
    }
    spans.sort_unstable_by(|e, f| by_low(e, f));
    Ok(spans)
}

// By lower end, then by the way up from there.
fn by_low(e: &Span, f: &Span) -> Ordering {
    match order(Frame::Plain, e.low.place, f.low.place) {
        Ordering::Equal => 0.cmp(&area(e.low.place, e.high.place, f.high.place)),
        other => other,
    }
}

// The numbers of the spans, in order.
pub fn numbers_of(alloc: Global, spans: &[Span]) -> Result<Vec<u32>, AllocError>
    requires { length spans.now < 2 ^ 32 }
    ensures { IfOk result (λ numbers. spans_in spans.now numbers.items ≡ spans.now) }
{
    let mut numbers = Vec::new(alloc);
    for number in 0..spans.len() {
        numbers.push(number as u32)?;
    }
    Ok(numbers)
}

// The span with the number, or one at no edge where there is none.
#[inline]
pub fn numbered(spans: &[Span], number: u32) -> Span
    ensures { result ≡ span_of spans.now number }
{
    match spans.get(number as usize) {
        Some(span) => *span,
        None => none(),
    }
}

// A span at no edge.
fn none() -> Span
    ensures { result ≡ no_span }
{
    Span {
        low: no_corner(),
        high: no_corner(),
        edge: EdgeRef { arc: 0, at: 0 },
    }
}

fn no_corner() -> Corner
    ensures { result ≡ no_corner }
{
    Corner {
        arc: 0,
        at: 0,
        is_end: false,
        place: Point::origin(),
    }
}

// Adds the edges of the arc.
fn push_arc(spans: &mut Vec<Span>, map: &ArcMap, arc: u32) -> Result<(), AllocError>
    requires arc { arc < length map.now.arcs }
    requires so_far { AreSpansBefore map.now arc 0 spans.old.items }
    ensures { OnOk result (AreSpansBefore map.now (arc + 1) 0 spans.new.items) }
{
    let positions = map.arc(arc);
    for at in 1..positions.len() {
        spans.push(span_at(positions, arc, at as u32 - 1))?;
    }
    Ok(())
}

// The edge from the position to the next one.
fn span_at(positions: &[Point], arc: u32, at: u32) -> Span
    requires arc { IsArc positions.now }
    requires within { at + 1 < length positions.now }
    requires short { length positions.now ≤ 2 ^ 20 }
    ensures { IsSpanAt positions.now arc at result }
{
    let start = corner_at(positions, arc, at);
    let end = corner_at(positions, arc, at + 1);
    let edge = EdgeRef { arc, at };
    if precedes(Frame::Plain, start.place, end.place) {
        Span {
            low: start,
            high: end,
            edge,
        }
    } else {
        Span {
            low: end,
            high: start,
            edge,
        }
    }
}

fn corner_at(positions: &[Point], arc: u32, at: u32) -> Corner
    requires { at < length positions.now }
    ensures arc { result.arc ≡ arc }
    ensures at { result.at ≡ at }
    ensures end { result.is_end ≡ ((at == 0) || (at + 1 == length positions.now)) }
    ensures place { result.place ≡ slice_index_or positions.now at nowhere }
{
    Corner {
        arc,
        at,
        is_end: at == 0 || at as usize + 1 == positions.len(),
        place: positions[at as usize],
    }
}
