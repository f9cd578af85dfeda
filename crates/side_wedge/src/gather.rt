//! The search for what stands beside a chain.
ghost use Rattle.std.specs.Prelude.{◌≡◌, ◌⊎◌, ◌+◌, ◌-◌, ◌<◌, ◌≤◌, ◌++◌, ℕ, IsTrue, IfSome, Some};
ghost use Rattle.std.specs.Prelude.{false, All, length, option_to_list, vec_len, vec_capacity};
ghost use Rattle.std.specs.List.Sorted.{IsNonDecreasingBy};
ghost use Rattle.chain_side.specs.Along.{vertex_at};
ghost use Rattle.lane_kernels.specs.declared.side.Hand.{Hand};
ghost use Rattle.sweep_index.specs.Walk.{items_left};
ghost use Rattle.map_index.specs.IndexedMap.{items_in};
ghost use Rattle.chain_reach.specs.Extents.{IsInBox};
ghost use Rattle.chain_reach.specs.Steps.{IsNearSomeEdge};
ghost use Rattle.side_wedge.specs.Gathered.{AreStraysOf, AreStraysTo, AreStraysInParts};
ghost use Rattle.side_wedge.specs.Gathered.{AreMapStrays};
ghost use Rattle.side_wedge.specs.Strays.{RunsAlong, IsStrayItem, IsStrayOf, stray};

use crate::strays::{Stray, stray_of};
use chain_reach::{
    Extent, Steps, block_end, block_round, block_size, may_reach, next_parts, next_size, part_round,
};
use grid_exact::{Direction, Point};
use map_index::{IndexedMap, is_other};
use sweep_index::{Item, Walk};

// A chain that is looked round: its number, its vertices, how they run, and how far from an edge a
// place counts.
#[derive(Clone, Copy)]
pub struct Subject<'a> {
    pub number: u32,
    pub chain: &'a [Point],
    pub direction: Direction,
    pub steps: Steps,
}

// Leaves in `strays` items of the map, of other chains and of none, that stand beside edges of the
// chain: each at least that is near some edge of it, but for items beyond the chain, in order of
// their rows. There is room for all items.
pub fn gather(strays: &mut Vec<Stray>, subject: &Subject<'_>, map: &IndexedMap)
    requires several { 2 ≤ length subject.now.chain.now }
    requires short { length subject.now.chain.now ≤ 1024 }
    requires room { items_in map.now ≤ vec_capacity strays.old }
    ensures strays { AreMapStrays subject.now.direction.frame subject.now.direction.rising
        subject.now.chain.now
        subject.now.number subject.now.steps map.now strays.new.items }
    ensures sorted { IsNonDecreasingBy (λ x. x.row) strays.new.items }
    ensures count { vec_len strays.new ≤ items_in map.now }
    ensures capacity { vec_capacity strays.new ≡ vec_capacity strays.old }
{
    find(strays, subject, map);
    strays.sort_unstable_by_key(|stray| stray.row);
}

// The same in any order.
fn find(strays: &mut Vec<Stray>, subject: &Subject<'_>, map: &IndexedMap)
    requires several { 2 ≤ length subject.now.chain.now }
    requires short { length subject.now.chain.now ≤ 1024 }
    requires room { items_in map.now ≤ vec_capacity strays.old }
    ensures strays { AreMapStrays subject.now.direction.frame subject.now.direction.rising
        subject.now.chain.now
        subject.now.number subject.now.steps map.now strays.new.items }
    ensures count { vec_len strays.new ≤ items_in map.now }
    ensures capacity { vec_capacity strays.new ≡ vec_capacity strays.old }
{
    let whole = Extent::round(subject.chain);
    let size = block_size(subject.chain, subject.steps, &whole);
    if take_blocks(strays, subject, map, &whole, size) {
        return;
    }
    take_whole(strays, subject, map, &whole);
}

// Leaves what is near the edges of the chain, found block after block, the first one of `size`
// edges. What is near several blocks is taken several times, which does no harm; false where there
// is no room for that.
fn take_blocks(
    strays: &mut Vec<Stray>,
    subject: &Subject<'_>,
    map: &IndexedMap,
    whole: &Extent,
    size: usize,
) -> bool
    requires several { 2 ≤ length subject.now.chain.now }
    requires short { length subject.now.chain.now ≤ 1024 }
    requires room { items_in map.now ≤ vec_capacity strays.old }
    requires round { All (IsInBox whole.now.low whole.now.high) subject.now.chain.now }
    requires size { 0 < size }
    ensures strays { IsTrue result
        → AreMapStrays subject.now.direction.frame subject.now.direction.rising
        subject.now.chain.now subject.now.number
        subject.now.steps map.now strays.new.items }
    ensures count { vec_len strays.new ≤ items_in map.now }
    ensures capacity { vec_capacity strays.new ≡ vec_capacity strays.old }
{
    strays.clear();
    let mut start = 0;
    let mut edges = size;
    let mut parts = 1;
    let mut found = 0;
    while start + 1 < subject.chain.len() {
        edges = edges_of(subject, start, edges, parts, found, whole);
        parts = next_parts(edges, parts, found);
        let end = end_of(subject.chain, start, edges, parts);
        if !take_next(strays, &mut found, subject, map, whole, start, end, parts) {
            return false;
        }
        start = end;
    }
    true
}

// How many edges to look round at once from the vertex number `start` on: as many as before, where
// one was cut in parts.
fn edges_of(
    subject: &Subject<'_>,
    start: usize,
    edges: usize,
    parts: u32,
    found: usize,
    whole: &Extent,
) -> usize
    requires start { start + 1 < length subject.now.chain.now }
    requires edges { 0 < edges }
    ensures { 0 < result }
{
    if parts > 1 {
        return edges;
    }
    next_size(subject.chain, start, edges, found, subject.steps, whole)
}

// The number of the last vertex of what is looked round from the vertex number `start` on: of one
// edge, where it is cut in parts, else of a block.
fn end_of(chain: &[Point], start: usize, edges: usize, parts: u32) -> usize
    requires start { start + 1 < length chain.now }
    requires edges { 0 < edges }
    ensures past { start < result }
    ensures within { result < length chain.now }
    ensures alone { 1 < parts → result ≡ start + 1 }
{
    if parts > 1 {
        return start + 1;
    }
    block_end(chain, start, edges)
}

// Takes what is near the edges from the vertex number `start` to the number `end`, or near the one
// edge that they are, cut in parts, where there are several. Leaves in `found` how many items were
// found, on the average, each time; false where there is no room.
fn take_next(
    strays: &mut Vec<Stray>,
    found: &mut usize,
    subject: &Subject<'_>,
    map: &IndexedMap,
    whole: &Extent,
    start: usize,
    end: usize,
    parts: u32,
) -> bool
    requires several { 2 ≤ length subject.now.chain.now }
    requires short { length subject.now.chain.now ≤ 1024 }
    requires room { items_in map.now ≤ vec_capacity strays.old }
    requires count { vec_len strays.old ≤ items_in map.now }
    requires round { All (IsInBox whole.now.low whole.now.high) subject.now.chain.now }
    requires order { start < end }
    requires within { end < length subject.now.chain.now }
    requires alone { 1 < parts → end ≡ start + 1 }
    requires few { parts ≤ 64 }
    ensures strays { IsTrue result
        → AreStraysTo subject.now.direction.frame subject.now.direction.rising subject.now.chain.now
        subject.now.number
        subject.now.steps map.now start strays.old.items
        → AreStraysTo subject.now.direction.frame subject.now.direction.rising subject.now.chain.now
        subject.now.number
        subject.now.steps map.now end strays.new.items }
    ensures count { vec_len strays.new ≤ items_in map.now }
    ensures capacity { vec_capacity strays.new ≡ vec_capacity strays.old }
{
    if parts > 1 {
        return take_parts(strays, found, subject, map, whole, start, end, parts);
    }
    take_block(strays, found, subject, map, whole, start, end)
}

// Takes what is near the edges from the vertex number `start` to the number `end`, and leaves in
// `found` how many items are in their box; false where there is no room for that.
fn take_block(
    strays: &mut Vec<Stray>,
    found: &mut usize,
    subject: &Subject<'_>,
    map: &IndexedMap,
    whole: &Extent,
    start: usize,
    end: usize,
) -> bool
    requires several { 2 ≤ length subject.now.chain.now }
    requires short { length subject.now.chain.now ≤ 1024 }
    requires room { items_in map.now ≤ vec_capacity strays.old }
    requires count { vec_len strays.old ≤ items_in map.now }
    requires round { All (IsInBox whole.now.low whole.now.high) subject.now.chain.now }
    requires order { start < end }
    requires within { end < length subject.now.chain.now }
    ensures strays { IsTrue result
        → AreStraysTo subject.now.direction.frame subject.now.direction.rising subject.now.chain.now
        subject.now.number
        subject.now.steps map.now start strays.old.items
        → AreStraysTo subject.now.direction.frame subject.now.direction.rising subject.now.chain.now
        subject.now.number
        subject.now.steps map.now end strays.new.items }
    ensures count { vec_len strays.new ≤ items_in map.now }
    ensures capacity { vec_capacity strays.new ≡ vec_capacity strays.old }
{
    let block = block_round(subject.chain, start, end, subject.steps, whole);
    let part = &subject.chain[start..end + 1];
    collect(
        strays,
        found,
        subject,
        part,
        map.item_count(),
        map.in_box(block.low, block.high),
    )
}

// Takes what is near the edge from the vertex number `start` to the number `end`, found part after
// part. Leaves in `found` how many items are in the box of a part on the average; false where there
// is no room.
fn take_parts(
    strays: &mut Vec<Stray>,
    found: &mut usize,
    subject: &Subject<'_>,
    map: &IndexedMap,
    whole: &Extent,
    start: usize,
    end: usize,
    parts: u32,
) -> bool
    requires several { 2 ≤ length subject.now.chain.now }
    requires short { length subject.now.chain.now ≤ 1024 }
    requires room { items_in map.now ≤ vec_capacity strays.old }
    requires count { vec_len strays.old ≤ items_in map.now }
    requires round { All (IsInBox whole.now.low whole.now.high) subject.now.chain.now }
    requires next { end ≡ start + 1 }
    requires within { end < length subject.now.chain.now }
    requires some { 0 < parts }
    requires few { parts ≤ 64 }
    ensures strays { IsTrue result
        → AreStraysTo subject.now.direction.frame subject.now.direction.rising subject.now.chain.now
        subject.now.number
        subject.now.steps map.now start strays.old.items
        → AreStraysTo subject.now.direction.frame subject.now.direction.rising subject.now.chain.now
        subject.now.number
        subject.now.steps map.now end strays.new.items }
    ensures count { vec_len strays.new ≤ items_in map.now }
    ensures capacity { vec_capacity strays.new ≡ vec_capacity strays.old }
{
    let mut all: usize = 0;
    for part in 0..parts {
        if !take_part(strays, found, subject, map, whole, start, end, parts, part) {
            return false;
        }
        all = all.saturating_add(*found);
    }
    *found = all / parts as usize;
    true
}

// Takes what is near the edge at a place of the part number `part`, and leaves in `found` how many
// items are in the box of the part; false where there is no room.
fn take_part(
    strays: &mut Vec<Stray>,
    found: &mut usize,
    subject: &Subject<'_>,
    map: &IndexedMap,
    whole: &Extent,
    start: usize,
    end: usize,
    parts: u32,
    part: u32,
) -> bool
    requires several { 2 ≤ length subject.now.chain.now }
    requires short { length subject.now.chain.now ≤ 1024 }
    requires room { items_in map.now ≤ vec_capacity strays.old }
    requires count { vec_len strays.old ≤ items_in map.now }
    requires round { All (IsInBox whole.now.low whole.now.high) subject.now.chain.now }
    requires next { end ≡ start + 1 }
    requires within { end < length subject.now.chain.now }
    requires part { part < parts }
    requires few { parts ≤ 64 }
    ensures strays { IsTrue result
        → AreStraysInParts subject.now.direction.frame subject.now.direction.rising
        subject.now.chain.now
        subject.now.number
        subject.now.steps map.now start parts part strays.old.items
        → AreStraysInParts subject.now.direction.frame subject.now.direction.rising
        subject.now.chain.now
        subject.now.number
        subject.now.steps map.now start parts (part + 1) strays.new.items }
    ensures count { vec_len strays.new ≤ items_in map.now }
    ensures capacity { vec_capacity strays.new ≡ vec_capacity strays.old }
{
    let first = subject.chain[start];
    let second = subject.chain[end];
    let round = part_round(first, second, parts, part, subject.steps, whole);
    let edge = &subject.chain[start..end + 1];
    collect(
        strays,
        found,
        subject,
        edge,
        map.item_count(),
        map.in_box(round.low, round.high),
    )
}

// Leaves what is near the edges of the chain, found in the box round it. No item is taken twice.
fn take_whole(strays: &mut Vec<Stray>, subject: &Subject<'_>, map: &IndexedMap, whole: &Extent)
    requires several { 2 ≤ length subject.now.chain.now }
    requires short { length subject.now.chain.now ≤ 1024 }
    requires room { items_in map.now ≤ vec_capacity strays.old }
    requires round { All (IsInBox whole.now.low whole.now.high) subject.now.chain.now }
    ensures strays { AreMapStrays subject.now.direction.frame subject.now.direction.rising
        subject.now.chain.now
        subject.now.number subject.now.steps map.now strays.new.items }
    ensures count { vec_len strays.new ≤ items_in map.now }
    ensures capacity { vec_capacity strays.new ≡ vec_capacity strays.old }
{
    strays.clear();
    let mut found = 0;
    let _all = collect(
        strays,
        &mut found,
        subject,
        subject.chain,
        map.item_count(),
        map.in_box(whole.low, whole.high),
    );
}

// Takes of the items of the walk those that stand beside edges of the chain: each at least that is
// near an edge of the part. Leaves in `found` how many items the walk has, on which speed rests and
// no answer. False where there was no room for one.
fn collect(
    strays: &mut Vec<Stray>,
    found: &mut usize,
    subject: &Subject<'_>,
    part: &[Point],
    room: usize,
    walk: Walk<'_>,
) -> bool
    requires several { 2 ≤ length subject.now.chain.now }
    requires short { length subject.now.chain.now ≤ 1024 }
    requires room { room ≤ vec_capacity strays.old }
    requires count { vec_len strays.old ≤ room }
    ensures strays { IsTrue result
        → AreStraysOf subject.now.direction.frame subject.now.direction.rising subject.now.chain.now
        subject.now.number
        subject.now.steps part.now strays.old.items (items_left walk.entry) strays.new.items }
    ensures all { length strays.old.items + length (items_left walk.entry) ≤ room → IsTrue result }
    ensures count { vec_len strays.new ≤ room }
    ensures capacity { vec_capacity strays.new ≡ vec_capacity strays.old }
{
    *found = 0;
    for (_, item) in walk {
        *found = found.saturating_add(1);
        if !push_within(strays, near_stray(subject, part, item), room) {
            return false;
        }
    }
    true
}

// The item as a stray, where it belongs to another chain, or to none, and stands beside an edge of
// the chain. None where it is not near an edge of the part.
fn near_stray(subject: &Subject<'_>, part: &[Point], item: Item) -> Option<Stray>
    requires several { 2 ≤ length subject.now.chain.now }
    requires short { length subject.now.chain.now ≤ 1024 }
    ensures some { IfSome result (IsStrayOf subject.now.direction.frame subject.now.direction.rising
        subject.now.chain.now subject.now.number item) }
    ensures all { (s : ℕ) (hand : Hand)
        → RunsAlong subject.now.direction.frame subject.now.direction.rising subject.now.chain.now
        → IsStrayItem subject.now.direction.frame subject.now.direction.rising subject.now.chain.now
        subject.now.number
        item s hand → IsNearSomeEdge subject.now.steps part.now item.at
        → result ≡ Some (stray s hand item.at) }
{
    if !is_other(item.owner, subject.number) {
        return None;
    }
    if is_at_end(subject.chain, item.at) {
        return None;
    }
    if !may_reach(part, subject.steps, item.at) {
        return None;
    }
    stray_of(subject.chain, subject.direction, subject.number, item)
}

// Whether p is at an end of the chain, so that it is over no edge of it.
fn is_at_end(chain: &[Point], p: Point) -> bool
    requires { 2 ≤ length chain.now }
    ensures { IsTrue result → (p ≡ vertex_at chain.now 0)
        ⊎ (p ≡ vertex_at chain.now (length chain.now - 1)) }
{
    is_either(p, chain[0], chain[chain.len() - 1])
}

// Whether p is a or b.
fn is_either(p: Point, a: Point, b: Point) -> bool
    ensures { IsTrue result → (p ≡ a) ⊎ (p ≡ b) }
{
    if p == a {
        return true;
    }
    if p == b {
        return true;
    }
    false
}

// Puts what was found at the end of the strays. False where there is no room for it.
fn push_within(strays: &mut Vec<Stray>, found: Option<Stray>, room: usize) -> bool
    requires room { room ≤ vec_capacity strays.old }
    requires count { vec_len strays.old ≤ room }
    ensures items { IsTrue result → strays.new.items ≡ strays.old.items ++ option_to_list found }
    ensures full { result ≡ false → room ≤ length strays.old.items }
    ensures count { vec_len strays.new ≤ room }
    ensures capacity { vec_capacity strays.new ≡ vec_capacity strays.old }
{
    let Some(stray) = found else {
        return true;
    };
    if strays.len() >= room {
        return false;
    }
    strays.push_reserved(stray);
    true
}
