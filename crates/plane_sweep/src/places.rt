//! The places where spans begin and end, in order.
ghost use Rattle.std.specs.Prelude.{IsTrue, IfOk, OnOk, Contains};
ghost use Rattle.grid_exact.specs.Geometry.{IsBefore};
ghost use Rattle.plane_sweep.specs.Passage.{Chained, FirstHas};
ghost use Rattle.plane_sweep.specs.Places.{ContainsAll, HasHighs};

use crate::spans::Span;
use grid_exact::{Frame, Point, order, precedes};
use std::alloc::{AllocError, Global};

// The places where spans begin and end, each once, in order.
pub fn places_of(alloc: Global, spans: &[Span]) -> Result<Vec<Point>, AllocError>
    ensures { IfOk result (λ places. HasHighs spans.now places.items) }
{
    let mut places = ends_of(alloc, spans)?;
    places.sort_unstable_by(|p, q| order(Frame::Plain, *p, *q));
    distinct(alloc, &places)
}

// The places where spans begin and end.
fn ends_of(alloc: Global, spans: &[Span]) -> Result<Vec<Point>, AllocError>
    ensures { IfOk result (λ places. HasHighs spans.now places.items) }
{
    let mut places = Vec::new(alloc);
    let mut rest = spans;
    while let Some((span, others)) = rest.split_first() {
        places.push(span.low.place)?;
        places.push(span.high.place)?;
        rest = others;
    }
    Ok(places)
}

// The places without those that stand behind an equal one.
fn distinct(alloc: Global, places: &[Point]) -> Result<Vec<Point>, AllocError>
    ensures { IfOk result (λ kept. ContainsAll places.now kept.items) }
{
    let mut kept = Vec::new(alloc);
    let mut rest = places;
    while let Some((place, others)) = rest.split_first() {
        push_new(&mut kept, *place)?;
        rest = others;
    }
    Ok(kept)
}

// Adds the place, unless it is the last one.
fn push_new(kept: &mut Vec<Point>, place: Point) -> Result<(), AllocError>
    ensures kept { OnOk result (ContainsAll kept.old.items kept.new.items) }
    ensures added { OnOk result (Contains kept.new.items place) }
{
    if is_last(kept, place) {
        Ok(())
    } else {
        kept.push(place)?;
        Ok(())
    }
}

fn is_last(kept: &[Point], place: Point) -> bool
    ensures { IsTrue result → Contains kept.now place }
{
    match kept.split_last() {
        Some((last, _)) => *last == place,
        None => false,
    }
}

// Whether each place is before the next.
pub fn are_rising(places: &[Point]) -> bool
    ensures { IsTrue result → Chained IsBefore places.now }
{
    let mut rest = places;
    while let Some((place, others)) = rest.split_first() {
        if !is_before_first(*place, others) {
            return false;
        }
        rest = others;
    }
    true
}

// Whether the place is before the first of the others, or there is none.
fn is_before_first(place: Point, others: &[Point]) -> bool
    ensures { IsTrue result → FirstHas (IsBefore place) others.now }
{
    match others.split_first() {
        Some((next, _)) => precedes(Frame::Plain, place, *next),
        None => true,
    }
}
