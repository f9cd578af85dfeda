//! Rings as cyclic lists.
ghost use Rattle.std.specs.Prelude.{◌≡◌, ◌<◌, IfOk, length, map};
ghost use Rattle.topo_build.specs.Cyclic.{closed_from, cyclic, opened};
ghost use Rattle.geo_reader.specs.Geo.{IsGeo};
ghost use Rattle.topo_build.specs.Built.{rings_of};

use geo_reader::GeoMap;
use grid_exact::Point;
use std::alloc::{AllocError, Global};

// The rings, each as a cyclic list.
pub(crate) fn cyclic_rings(alloc: Global, geo: &GeoMap) -> Result<Vec<Vec<Point>>, AllocError>
    ensures rings { IfOk result (λ rings.
        map (λ ring. ring.items) rings.items ≡ rings_of geo.now) }
    ensures is_geo { IsGeo geo.now }
{
    let mut rings = Vec::new(alloc);
    for r in 0..geo.ring_count() {
        rings.push(cyclic(alloc, geo.ring(r))?)?;
    }
    Ok(rings)
}

// The ring as a cyclic list.
fn cyclic(alloc: Global, ring: &[Point]) -> Result<Vec<Point>, AllocError>
    ensures { IfOk result (λ c. c.items ≡ cyclic ring.now) }
{
    let mut walk = ring.to_vec(alloc)?;
    walk.dedup();
    drop_closing(&mut walk);
    Ok(walk)
}

// Takes the closing position away, which a walk of two positions or more has.
fn drop_closing(walk: &mut Vec<Point>)
    ensures { walk.new.items ≡ opened walk.old.items }
{
    if walk.len() > 1 {
        walk.pop();
    }
}

// The cyclic list from its place number `at` round to it again.
pub(crate) fn closed_from(
    alloc: Global,
    ring: &[Point],
    at: usize,
) -> Result<Vec<Point>, AllocError>
    requires { at < length ring.now }
    ensures { IfOk result (λ walk. walk.items ≡ closed_from ring.now at) }
{
    let mut walk = ring[at..].to_vec(alloc)?;
    walk.extend_from_slice(&ring[..at + 1])?;
    Ok(walk)
}
