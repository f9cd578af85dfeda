//! Blocks of edges of a walk, each with the box in which what is near them is looked for.
ghost use Rattle.std.specs.Prelude.{◌+◌, ◌<◌, ◌≤◌, IsTrue, length};
ghost use Rattle.chain_reach.specs.Blocks.{AreFoundIn};
ghost use Rattle.chain_reach.specs.Steps.{IsNearSomeEdge};

use crate::extent::Extent;
use crate::steps::{Steps, reaches};
use grid_exact::Point;

// How many edges a block has at most.
const BLOCK: usize = 8;

// Where more items than this were found in the box of a block, the next one may have fewer edges.
const MANY: usize = 32;

// Where fewer items than this were found, the next one has more edges.
const FEW: usize = 8;

/// How many edges to look round at once, where the box `whole` is round the walk: a few, or all of
/// them where boxes round a few would not be much smaller together.
pub fn block_size(walk: &[Point], steps: Steps, whole: &Extent) -> usize
    requires { 2 ≤ length walk.now }
    ensures { 0 < result }
{
    if walk.len() <= BLOCK + 1 || size_of_blocks(walk, steps, whole) < whole.size() / 2 {
        BLOCK
    } else {
        walk.len()
    }
}

// The sizes of the boxes round the blocks in sum.
fn size_of_blocks(walk: &[Point], steps: Steps, whole: &Extent) -> u64
    requires { 2 ≤ length walk.now }
{
    let mut sum: u64 = 0;
    let mut start = 0;
    while start + 1 < walk.len() {
        let end = block_end(walk, start, BLOCK);
        sum = sum.saturating_add(block_round(walk, start, end, steps, whole).size());
        start = end;
    }
    sum
}

/// How many edges to look round at once from the place number `start` on, where the block before it
/// had `size` edges and so many items were found in its box: half as many where these are many and
/// the boxes round the halves are smaller together, twice as many where these are few.
pub fn next_size(
    walk: &[Point],
    start: usize,
    size: usize,
    found: usize,
    steps: Steps,
    whole: &Extent,
) -> usize
    requires start { start + 1 < length walk.now }
    requires size { 0 < size }
    ensures { 0 < result }
{
    if found < FEW {
        return more_edges(size);
    }
    if found <= MANY {
        return size;
    }
    if size < 2 {
        return size;
    }
    fewer_edges(walk, start, size, steps, whole)
}

/// In how many equal parts to cut the edge that is looked round by itself, where it or each part
/// of the one before it had `found` items in its box: in twice as many where these are many, in
/// half as many where they are few. One where there are several edges.
pub fn next_parts(edges: usize, parts: u32, found: usize) -> u32
    requires some { 0 < parts }
    requires few { parts ≤ 64 }
    ensures some { 0 < result }
    ensures few { result ≤ 64 }
{
    if edges > 1 {
        return 1;
    }
    if found > MANY && parts <= 32 {
        return 2 * parts;
    }
    if found < FEW && parts >= 2 {
        return parts / 2;
    }
    parts
}

// Twice as many edges, where a block may have so many.
fn more_edges(size: usize) -> usize
    requires { 0 < size }
    ensures { 0 < result }
{
    if size <= BLOCK / 2 { 2 * size } else { size }
}

// Half as many edges, where the boxes round the two halves of the block that begins at the place
// number `start` are smaller together than the box round it; else as many.
fn fewer_edges(walk: &[Point], start: usize, size: usize, steps: Steps, whole: &Extent) -> usize
    requires start { start + 1 < length walk.now }
    requires size { 2 ≤ size }
    ensures { 0 < result }
{
    let end = block_end(walk, start, size);
    let middle = block_end(walk, start, size / 2).min(end);
    let first = block_round(walk, start, middle, steps, whole).size();
    let second = block_round(walk, middle, end, steps, whole).size();
    let both = block_round(walk, start, end, steps, whole).size();
    if first.saturating_add(second) < both / 8 * 5 {
        size / 2
    } else {
        size
    }
}

/// The number of the last place of the block of so many edges that begins at the place number
/// `start`, or of the walk's last place.
pub fn block_end(walk: &[Point], start: usize, size: usize) -> usize
    requires start { start + 1 < length walk.now }
    requires size { 0 < size }
    ensures past { start < result }
    ensures within { result < length walk.now }
{
    start.saturating_add(size).min(walk.len() - 1)
}

/// The box round the places of the walk from the number `start` to the number `end`, grown by the
/// steps, as far as the box `whole` goes.
pub fn block_round(walk: &[Point], start: usize, end: usize, steps: Steps, whole: &Extent) -> Extent
    requires order { start ≤ end }
    requires within { end < length walk.now }
    ensures { AreFoundIn walk.now start end steps whole.now result }
{
    Extent::round(&walk[start..end + 1]).grown_within(steps, whole)
}

/// Whether p may be near an edge of the walk. A walk longer than a block is not looked through: the
/// answer is then true.
pub fn may_reach(walk: &[Point], steps: Steps, p: Point) -> bool
    ensures { IsNearSomeEdge steps walk.now p → IsTrue result }
{
    if walk.len() > BLOCK + 1 {
        return true;
    }
    reaches(walk, steps, p)
}
