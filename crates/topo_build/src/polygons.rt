//! The arcs of polygons.
ghost use Rattle.std.specs.Prelude.{◌≡◌, ◌++◌, ℤ, IfOk, OnOk, map};
ghost use Rattle.std.specs.List.{flat_map};
ghost use Rattle.topo_build.specs.References.{arc_of, polygons_of};

use std::alloc::{AllocError, Global};

// For each polygon the numbers of the arcs that its rings name, each as often as it is named. The
// rings are those of the first polygon, then those of the second, and so on.
pub(crate) fn polygon_arcs(
    alloc: Global,
    counts: &[u32],
    rings: &[Vec<i32>],
) -> Result<Vec<Vec<u32>>, AllocError>
    ensures { IfOk result (λ polygons. map (λ arcs. arcs.items) polygons.items
        ≡ polygons_of counts.now (map (λ refs. refs.items) rings.now)) }
{
    let mut polygons = Vec::new(alloc);
    let mut rest = rings;
    for count in counts {
        let (here, behind) = rest.split_at(rest.len().min(*count as usize));
        polygons.push(named_arcs(alloc, here)?)?;
        rest = behind;
    }
    Ok(polygons)
}

// The numbers of the arcs that rings name.
fn named_arcs(alloc: Global, rings: &[Vec<i32>]) -> Result<Vec<u32>, AllocError>
    ensures { IfOk result (λ arcs. arcs.items
        ≡ flat_map (map arc_of) (map (λ refs. refs.items) rings.now)) }
{
    let mut arcs = Vec::new(alloc);
    for refs in rings {
        push_arcs(&mut arcs, refs.as_slice())?;
    }
    Ok(arcs)
}

// Adds the numbers of the arcs of the references.
fn push_arcs(arcs: &mut Vec<u32>, refs: &[i32]) -> Result<(), AllocError>
    ensures { OnOk result (arcs.new.items ≡ arcs.old.items ++ map arc_of refs.now) }
{
    for r in refs {
        arcs.push(arc_number(*r))?;
    }
    Ok(())
}

// The number of the arc of a reference.
fn arc_number(r: i32) -> u32
    ensures { result ≡ arc_of r }
{
    if r < 0 { (-1 - r) as u32 } else { r as u32 }
}
