//! How many pairs of edges of a map come near one another, told from some of its edges.
ghost use Rattle.std.specs.Prelude.{◌≤◌};

use arc_map::ArcMap;
use grid_exact::Point;
use std::alloc::{AllocError, Global};

// How many edges are looked at, at most.
const SAMPLES: usize = 512;

// The closed box round an edge.
#[derive(Clone, Copy)]
struct Area {
    west: i64,
    south: i64,
    east: i64,
    north: i64,
}

impl Area {
    // The box round two places.
    fn between(a: Point, b: Point) -> Area {
        Area {
            west: a.x().min(b.x()),
            south: a.y().min(b.y()),
            east: a.x().max(b.x()),
            north: a.y().max(b.y()),
        }
    }

    // Whether the ranges of x meet, and those of y are at most so far apart.
    fn is_near(&self, other: &Area, height: i64) -> bool {
        (self.west <= other.east && other.west <= self.east)
            && self.south.saturating_sub(other.north) <= height
            && other.south.saturating_sub(self.north) <= height
    }
}

// How many edges the map has.
pub fn edge_count(map: &ArcMap) -> usize {
    let mut count: usize = 0;
    for arc in 0..map.arc_count() {
        count = count.saturating_add(map.arc(arc).len().saturating_sub(1));
    }
    count
}

// About how many pairs of the edges, of which there are so many, come near one another: within a
// band of y, of which there are as many as edges in a band.
pub fn pair_count(alloc: Global, map: &ArcMap, edges: usize) -> Result<u64, AllocError> {
    let stride = edges / SAMPLES + 1;
    let areas = sampled(alloc, map, stride)?;
    let pairs = near_pairs(&areas, band_height(&areas, edges as u64));
    let stride = stride as u64;
    Ok(pairs.saturating_mul(stride).saturating_mul(stride))
}

// The boxes round some of the edges: one of each so many.
fn sampled(alloc: Global, map: &ArcMap, stride: usize) -> Result<Vec<Area>, AllocError> {
    let mut areas = Vec::new(alloc);
    let mut wait: usize = 0;
    for arc in 0..map.arc_count() {
        let positions = map.arc(arc);
        for at in 1..positions.len() {
            if wait == 0 {
                areas.push(Area::between(positions[at - 1], positions[at]))?;
                wait = stride;
            }
            wait = wait.saturating_sub(1);
        }
    }
    Ok(areas)
}

// The height of bands over the boxes, of which there are as many as edges in a band.
fn band_height(areas: &[Area], edges: u64) -> i64 {
    let mut south = i64::MAX;
    let mut north = i64::MIN;
    for area in areas {
        south = south.min(area.south);
        north = north.max(area.north);
    }
    let reach = north.saturating_sub(south).max(0) as u64;
    (reach >> root_bits(edges)).min(1 << 30) as i64
}

// Half as many bits as the number has.
fn root_bits(count: u64) -> u32
    ensures { result ≤ 32 }
{
    (64 - count.leading_zeros()) / 2
}

// How many pairs of the boxes are near one another.
fn near_pairs(areas: &[Area], height: i64) -> u64 {
    let mut pairs: u64 = 0;
    let mut rest = areas;
    while let Some((area, others)) = rest.split_first() {
        pairs = pairs.saturating_add(near_count(area, others, height));
        rest = others;
    }
    pairs
}

// How many of the other boxes are near this one.
fn near_count(area: &Area, others: &[Area], height: i64) -> u64 {
    let mut count: u64 = 0;
    for other in others {
        if area.is_near(other, height) {
            count = count.saturating_add(1);
        }
    }
    count
}
