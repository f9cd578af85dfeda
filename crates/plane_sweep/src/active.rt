//! The active spans of the sweep by their numbers, from the lowest to the highest, and what one
//! place does to them.
ghost use Rattle.std.specs.Prelude.{◌≡◌, ◌↔◌, ◌≤◌, ◌-◌, ◌<ℤ◌, ◌++◌, IsTrue, IfOk, OnOk, length};
ghost use Rattle.std.specs.Prelude.{take, drop, pos};
ghost use Rattle.arc_map.specs.Edges.{EachOf};
ghost use Rattle.plane_sweep.specs.Meeting.{EndsUnder, side_of};
ghost use Rattle.plane_sweep.specs.Passage.{BeginsAt, Chained, EndsAt, FirstHas, IsPassage};
ghost use Rattle.plane_sweep.specs.Passage.{LastHas, MayPass, TurnsUp};
ghost use Rattle.plane_sweep.specs.Spans.{span_of, spans_in};

use crate::spans::{Corner, Span, may_join, numbered};
use grid_exact::{Frame, Point, area, precedes};
use std::alloc::AllocError;

// Passes the place q, at which the new spans begin: in the place of the active spans through q come
// the new ones. False where the active spans and the new ones are not in order there, edges meet
// there that may not join, or no moves are left.
pub fn pass(
    active: &mut Vec<u32>,
    spans: &[Span],
    q: Point,
    new: &[u32],
    moves_left: &mut u64,
) -> Result<bool, AllocError>
    ensures { IfOk result (λ passed. IsTrue passed → IsPassage q (spans_in spans.now new.now)
        (spans_in spans.now active.old.items) (spans_in spans.now active.new.items)) }
{
    let from = count_below(spans, active, q);
    let (below, rest) = active.split_at(from);
    let (block, above) = rest.split_at(count_through(spans, rest, q));
    let to = from + block.len();
    if !may_pass(spans, q, below, block, above, new) {
        return Ok(false);
    }
    if new.len() != block.len() && !spend(moves_left, above.len()) {
        return Ok(false);
    }
    replace(active, from, to, new)?;
    Ok(true)
}

// Takes so many of the moves that are left, if there are as many.
fn spend(moves_left: &mut u64, count: usize) -> bool {
    let count = count as u64;
    let enough = count <= *moves_left;
    *moves_left = moves_left.saturating_sub(count);
    enough
}

// How many spans are under the place, where they are in order.
fn count_below(spans: &[Span], active: &[u32], q: Point) -> usize
    ensures { result ≤ length active.now }
{
    let mut low = 0;
    let mut high = active.len();
    while low < high {
        let middle = low + (high - low) / 2;
        if side(&numbered(spans, active[middle]), q) > 0 {
            low = middle + 1;
        } else {
            high = middle;
        }
    }
    low
}

// How many spans from the first on pass through the place.
fn count_through(spans: &[Span], rest: &[u32], q: Point) -> usize
    ensures { result ≤ length rest.now }
{
    let mut count = 0;
    while count < rest.len() && side(&numbered(spans, rest[count]), q) == 0 {
        count += 1;
    }
    count
}

// On which side of the span the place is: positive above it, 0 on its line.
fn side(span: &Span, q: Point) -> i64
    ensures { result ≡ side_of span.now q }
{
    area(span.low.place, span.high.place, q)
}

// Puts the new spans in the place of those from `from` to `to`: over them where they are as many.
fn replace(active: &mut Vec<u32>, from: usize, to: usize, new: &[u32]) -> Result<(), AllocError>
    requires order { from ≤ to }
    requires within { to ≤ length active.old.items }
    ensures { OnOk result (active.new.items ≡ take from active.old.items ++ (new.now
        ++ drop to active.old.items)) }
{
    if new.len() == to - from {
        overwrite(active, from, to, new);
        Ok(())
    } else {
        exchange(active, from, to, new)
    }
}

// Writes as many new spans over those from `from` to `to`.
fn overwrite(active: &mut [u32], from: usize, to: usize, new: &[u32])
    requires order { from ≤ to }
    requires within { to ≤ length active.old }
    requires many { length new.now ≡ to - from }
    ensures { active.new ≡ take from active.old ++ (new.now ++ drop to active.old) }
{
    active[from..to].copy_from_slice(new);
}

// Cuts the spans from `from` to `to`, and puts the new ones there.
fn exchange(active: &mut Vec<u32>, from: usize, to: usize, new: &[u32]) -> Result<(), AllocError>
    requires order { from ≤ to }
    requires within { to ≤ length active.old.items }
    ensures { OnOk result (active.new.items ≡ take from active.old.items ++ (new.now
        ++ drop to active.old.items)) }
{
    active.drain(from..to);
    active.extend_from_slice(new)?;
    active[from..].rotate_right(new.len());
    Ok(())
}

// Whether the sweep may pass the place q with these active spans below it, through it and above it.
fn may_pass(
    spans: &[Span],
    q: Point,
    below: &[u32],
    block: &[u32],
    above: &[u32],
    new: &[u32],
) -> bool
    ensures { IsTrue result → MayPass q (spans_in spans.now below.now)
        (spans_in spans.now block.now) (spans_in spans.now above.now) (spans_in spans.now new.now) }
{
    match hub(spans, block, new) {
        None => false,
        Some(hub) => {
            is_over_last(spans, below, q)
                && is_under_first(spans, above, q)
                && all_end(spans, block, q, &hub)
                && all_begin(spans, new, q, &hub)
                && is_fan(spans, new)
                && are_linked_to(spans, below, new, above)
        }
    }
}

// A corner at a place where these spans end and those begin.
fn hub(spans: &[Span], block: &[u32], new: &[u32]) -> Option<Corner> {
    match block.first() {
        Some(number) => Some(numbered(spans, *number).high),
        None => match new.first() {
            Some(number) => Some(numbered(spans, *number).low),
            None => None,
        },
    }
}

// Whether the place is above the last span, or there is none.
fn is_over_last(spans: &[Span], below: &[u32], q: Point) -> bool
    ensures { IsTrue result → LastHas (λ s. pos 0 <ℤ side_of s q) (spans_in spans.now below.now) }
{
    match below.split_last() {
        Some((number, _)) => is_above(spans, *number, q),
        None => true,
    }
}

// Whether the place is above the span.
fn is_above(spans: &[Span], number: u32, q: Point) -> bool
    ensures { IsTrue result → (pos 0 <ℤ side_of (span_of spans.now number) q) }
{
    side(&numbered(spans, number), q) > 0
}

// Whether the place is under the first span, or there is none.
fn is_under_first(spans: &[Span], above: &[u32], q: Point) -> bool
    ensures { IsTrue result → FirstHas (λ s. side_of s q <ℤ pos 0) (spans_in spans.now above.now) }
{
    match above.split_first() {
        Some((number, _)) => side(&numbered(spans, *number), q) < 0,
        None => true,
    }
}

// Whether all spans end at the place, and may join the hub there.
fn all_end(spans: &[Span], block: &[u32], q: Point, hub: &Corner) -> bool
    ensures { IsTrue result → EachOf (EndsAt q hub.now) (spans_in spans.now block.now) }
{
    let mut rest = block;
    while let Some((number, others)) = rest.split_first() {
        if !ends_at(&numbered(spans, *number), q, hub) {
            return false;
        }
        rest = others;
    }
    true
}

fn ends_at(span: &Span, q: Point, hub: &Corner) -> bool
    ensures { IsTrue result ↔ EndsAt q hub.now span.now }
{
    span.high.place == q && may_join(hub, &span.high)
}

// Whether all spans begin at the place, and may join the hub there.
fn all_begin(spans: &[Span], new: &[u32], q: Point, hub: &Corner) -> bool
    ensures { IsTrue result → EachOf (BeginsAt q hub.now) (spans_in spans.now new.now) }
{
    let mut rest = new;
    while let Some((number, others)) = rest.split_first() {
        if !begins_at(&numbered(spans, *number), q, hub) {
            return false;
        }
        rest = others;
    }
    true
}

fn begins_at(span: &Span, q: Point, hub: &Corner) -> bool
    ensures { IsTrue result ↔ BeginsAt q hub.now span.now }
{
    span.low.place == q && may_join(hub, &span.low)
}

// Whether each span turns up from the one before it.
fn is_fan(spans: &[Span], new: &[u32]) -> bool
    ensures { IsTrue result → Chained TurnsUp (spans_in spans.now new.now) }
{
    let mut rest = new;
    while let Some((number, others)) = rest.split_first() {
        if !does_first_turn(spans, &numbered(spans, *number), others) {
            return false;
        }
        rest = others;
    }
    true
}

// Whether the first of the others turns up from the span, or there is none.
fn does_first_turn(spans: &[Span], span: &Span, others: &[u32]) -> bool
    ensures { IsTrue result → FirstHas (TurnsUp span.now) (spans_in spans.now others.now) }
{
    match others.split_first() {
        Some((next, _)) => side(span, numbered(spans, *next).high.place) > 0,
        None => true,
    }
}

// Whether each span, with the new ones between those below and above, stays under its neighbour,
// where those below do and those above do.
fn are_linked_to(spans: &[Span], below: &[u32], new: &[u32], above: &[u32]) -> bool
    ensures { IsTrue result → Chained EndsUnder (spans_in spans.now below.now) → Chained EndsUnder
        (spans_in spans.now above.now) → Chained EndsUnder (spans_in spans.now below.now ++
        (spans_in spans.now new.now ++ spans_in spans.now above.now)) }
{
    if new.is_empty() {
        is_seam(spans, below, above)
    } else if is_seam(spans, below, new) {
        are_linked(spans, new) && is_seam(spans, new, above)
    } else {
        false
    }
}

// Whether each span stays under the next.
fn are_linked(spans: &[Span], numbers: &[u32]) -> bool
    ensures { IsTrue result → Chained EndsUnder (spans_in spans.now numbers.now) }
{
    let mut rest = numbers;
    while let Some((number, others)) = rest.split_first() {
        if !is_under_next(spans, &numbered(spans, *number), others) {
            return false;
        }
        rest = others;
    }
    true
}

// Whether the last of the lower spans stays under the first of the upper ones, or there is none.
fn is_seam(spans: &[Span], lower: &[u32], upper: &[u32]) -> bool
    ensures { IsTrue result → LastHas (λ s. FirstHas (EndsUnder s) (spans_in spans.now upper.now))
        (spans_in spans.now lower.now) }
{
    match lower.split_last() {
        Some((number, _)) => is_under_next(spans, &numbered(spans, *number), upper),
        None => true,
    }
}

// Whether the span stays under the first of these, or there is none.
fn is_under_next(spans: &[Span], span: &Span, upper: &[u32]) -> bool
    ensures { IsTrue result → FirstHas (EndsUnder span.now) (spans_in spans.now upper.now) }
{
    match upper.split_first() {
        Some((next, _)) => ends_under(span, &numbered(spans, *next)),
        None => true,
    }
}

// Whether e is not over f where the earlier of them ends.
fn ends_under(e: &Span, f: &Span) -> bool
    ensures { IsTrue result → EndsUnder e.now f.now }
{
    if precedes(Frame::Plain, f.high.place, e.high.place) {
        side(e, f.high.place) >= 0
    } else {
        side(f, e.high.place) <= 0
    }
}
