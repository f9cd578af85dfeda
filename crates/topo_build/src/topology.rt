//! The topology of the rings of a map.
ghost use Rattle.std.specs.Prelude.{◌≤◌, ◌^◌, ◌↔◌, [], All, IfOk, length, map, sum_by};
ghost use Rattle.std.specs.List.{AllZip};
ghost use Rattle.arc_map.specs.Arcs.{IsMapArrangedBeside};
ghost use Rattle.arc_map.specs.Map.{IsMap};
ghost use Rattle.topo_build.specs.Built.{AreRingsBuilt, IsBuilt, geo_turns, rings_of};
ghost use Rattle.topo_build.specs.Clean.{AreClean, HasEachEdgeOnce};
ghost use Rattle.topo_build.specs.Found.{IsFound, IsRingFound};
ghost use Rattle.topo_build.specs.Passages.{IsMarked};
ghost use Rattle.topo_build.specs.References.{IsPutTogether};

use crate::arcs::Arcs;
use crate::cut::ring_references;
use crate::cyclic::cyclic_rings;
use crate::junctions::Junctions;
use crate::polygons::polygon_arcs;
use crate::rings::Rings;
use arc_map::{ArcMap, NoMemory};
use geo_reader::GeoMap;
use grid_exact::Point;
use std::alloc::{AllocError, Global};

/// A map of arcs, and the references of its rings to them.
#[derive(Drop)]
pub struct Built {
    /// the arcs, the points as they were read, and for each polygon the numbers of its arcs
    pub map: ArcMap,
    /// for each ring its references, in the order in which the rings were read
    pub rings: Rings,
}

/// The topology of the rings of a map that was read: arcs that neighbours share.
///
/// Rings are taken as cyclic lists, without equal neighbours and without the closing position. A
/// position is a junction if it has equal neighbours somewhere, if it stands twice in one ring, or
/// if it has other neighbours elsewhere; only rings of two or more positions count there. A ring
/// with junctions is cut at each of them, beginning at the first; one without is one closed arc
/// from its first position. Each piece is an earlier arc, forwards or backwards, where there is
/// such a one (for a closed arc wherever it begins), and else the next arc. A ring of one position
/// is always the next arc. The points stay as they are, and each polygon names the arcs of its
/// rings. The only error is want of memory.
pub fn build(alloc: Global, geo: &GeoMap) -> Result<Built, NoMemory>
    ensures built { IfOk result (λ built. IsBuilt geo.now built.map built.rings) }
    ensures is_map { IfOk result (λ built. IsMap built.map) }
    // Put together, the references of each ring are the ring, in its own direction.
    ensures together { IfOk result (λ built.
        AllZip (IsPutTogether built.map.arcs) (rings_of geo.now) built.rings) }
    // Two neighbours in a ring are the ends of one edge of one arc.
    ensures edges { IfOk result (λ built. HasEachEdgeOnce (geo_turns geo.now) built.map.arcs) }
    // The map is arranged exactly where the rings are clean.
    ensures arranged { IfOk result (λ built. IsMapArrangedBeside [] built.map
        ↔ AreClean (geo_turns geo.now) geo.now.points) }
{
    let rings = cyclic_rings(alloc, geo)?;
    let junctions = Junctions::build(alloc, rings.as_slice())?;
    let (arcs, refs) = arcs_of(alloc, rings.as_slice(), &junctions)?;
    let polygons = polygon_arcs(alloc, geo.polygons(), refs.as_slice())?;
    let points = geo.points().to_vec(alloc)?;
    Ok(Built {
        map: ArcMap::new(arcs, points, polygons, false),
        rings: Rings::new(refs),
    })
}

// The arcs of the rings, and for each ring its references.
fn arcs_of(
    alloc: Global,
    rings: &[Vec<Point>],
    junctions: &Junctions,
) -> Result<(Vec<Vec<Point>>, Vec<Vec<i32>>), AllocError>
    requires some { All (λ ring. 1 ≤ length ring.items) rings.now }
    requires few { sum_by (λ ring. length ring.items) rings.now ≤ 2 ^ 20 }
    ensures { IfOk result (λ both. AreRingsBuilt IsFound IsRingFound (IsMarked junctions.now)
        (map (λ ring. ring.items) rings.now) [] (map (λ refs. refs.items) both.1.items)
        (map (λ arc. arc.items) both.0.items)) }
{
    let mut arcs = Arcs::new(alloc);
    let mut refs = Vec::new(alloc);
    for ring in rings {
        refs.push(ring_references(alloc, &mut arcs, junctions, ring.as_slice())?)?;
    }
    Ok((arcs.into_list(), refs))
}
