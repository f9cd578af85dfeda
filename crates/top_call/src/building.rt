//! The form that builds a topology of GeoJSON.
ghost use Rattle.std.specs.Prelude.{◌≡◌, ◌≤◌, ◌^◌, ◌⊎◌, IfOk, IfErr, length};
ghost use Rattle.top_call.specs.Built.{IsBuiltOf, IsGeoRefusal};
ghost use Rattle.top_call.specs.Endings.{IsMapStatus};

use crate::status::Status;
use geo_reader::read_geo;
use geo_text::built_text;
use json_scan::scan;
use std::alloc::Global;
use topo_build::build;

/// The text of the topology (TopoJSON 1.0) that is built of a text of GeoJSON (RFC 7946). The
/// errors are the statuses of a text that is no JSON text or no GeoJSON of the kind that is read,
/// with the place in bytes from 0, and want of memory.
pub fn built(alloc: Global, text: &[u8]) -> Result<Vec<u8>, Status>
    requires { length text.now ≤ 2 ^ 26 }
    ensures written { IfOk result (λ bytes. IsBuiltOf text.now bytes.items) }
    ensures refused { IfErr result (λ s. (s ≡ Status.NoMemory) ⊎ IsGeoRefusal text.now s) }
    ensures status { IfErr result IsMapStatus }
{
    let scanned = scan(alloc, text)?;
    let geo = read_geo(alloc, &scanned)?;
    let topology = build(alloc, &geo)?;
    Ok(built_text(alloc, &scanned, &geo, &topology)?)
}
