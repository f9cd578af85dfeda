//! The geometries of `objects`.

ghost use Rattle.std.specs.Prelude.{◌≤◌, ◌^◌, length};
ghost use Rattle.json_scan.specs.Shown.{tree};
ghost use Rattle.topo_reader.specs.Arcs.{places_of};
ghost use Rattle.topo_reader.specs.Geometries.{objects_of};
ghost use Rattle.topo_reader.specs.Gives.{Gives};
ghost use Rattle.topo_reader.specs.SeenSoFar.{seen_of};

use crate::collection::geometry;
use crate::fault::ReadFault;
use crate::geometries::SeenSoFar;
use crate::items::object_of;
use grid_exact::Point;
use json_scan::Value;
use std::alloc::Global;

/// Reads the geometries of `objects`, whose names are not compared.
pub fn objects(
    alloc: Global,
    value: Value<'_>,
    arcs: &[Vec<Point>],
    seen: &mut SeenSoFar,
) -> Result<(), ReadFault>
    requires { length arcs.now ≤ 2 ^ 20 }
    ensures { Gives (λ _. seen_of seen.new) result
        (objects_of (places_of arcs.now) (tree value.entry) (seen_of seen.old)) }
{
    for member in object_of(value)?.values() {
        geometry(alloc, member, arcs, seen)?;
    }
    Ok(())
}
