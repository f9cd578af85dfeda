//! The status that tells an error of the crates below.
ghost use Rattle.std.specs.Prelude.{◌≡◌};
ghost use Rattle.top_call.specs.Maps.{scan_status, fault_status, check_status};
ghost use Rattle.top_call.specs.Built.{geo_status};

use crate::status::{Limit, Meeting, Status};
use arc_map::NoMemory;
use arrangement_check::CheckError;
use geo_reader::GeoFault;
use json_scan::ScanError;
use std::alloc::AllocError;
use topo_reader::ReadFault;

impl From<NoMemory> for Status {
    ghost use Rattle.top_call.specs.declared.status.Status.TheVariants.{NoMemory};

    ghost from_gives = { λ _ s. s ≡ NoMemory };

    fn from(_: NoMemory) -> Self {
        Status::NoMemory
    }
}

impl From<AllocError> for Status {
    ghost use Rattle.top_call.specs.declared.status.Status.TheVariants.{NoMemory};

    ghost from_gives = { λ _ s. s ≡ NoMemory };

    fn from(_: AllocError) -> Self {
        Status::NoMemory
    }
}

// The status of a text that is no JSON text, or that is too deep.
impl From<ScanError> for Status {
    ghost from_gives = { λ error s. s ≡ scan_status error };

    fn from(error: ScanError) -> Self {
        match error {
            ScanError::NotUtf8 { at } => Status::NotUtf8(at),
            ScanError::NotJson { at } => Status::NotJson(at),
            ScanError::TooDeep { at } => Status::TooLarge(Limit::Depth(at)),
            ScanError::NoMemory => Status::NoMemory,
        }
    }
}

// The status of a text that is no topology.
impl From<ReadFault> for Status {
    ghost from_gives = { λ fault s. s ≡ fault_status fault };

    fn from(fault: ReadFault) -> Self {
        match fault {
            ReadFault::Shape { kind, at } => Status::NotTopology(kind, at),
            ReadFault::Off { kind, at } => Status::OffProfile(kind, at),
            ReadFault::TooMany { what, at } => Status::TooLarge(Limit::Many(what, at)),
            ReadFault::NoMemory => Status::NoMemory,
        }
    }
}

// The status of a text that is no GeoJSON of the kind that is read.
impl From<GeoFault> for Status {
    ghost from_gives = { λ fault s. s ≡ geo_status fault };

    fn from(fault: GeoFault) -> Self {
        match fault {
            GeoFault::Shape { kind, at } => Status::NotGeoJson(kind, at),
            GeoFault::Off { kind, at } => Status::OffProfile(kind, at),
            GeoFault::TooMany { what, at } => Status::TooLarge(Limit::Many(what, at)),
            GeoFault::NoMemory => Status::NoMemory,
        }
    }
}

// The status of a map that is not arranged.
impl From<CheckError> for Status {
    ghost from_gives = { λ error s. s ≡ check_status error };

    fn from(error: CheckError) -> Self {
        match error {
            CheckError::Edges(e, f) => Status::NotArranged(Meeting::Edges(e, f)),
            CheckError::PointOnArc(point, e) => Status::NotArranged(Meeting::PointOnArc(point, e)),
            CheckError::NoMemory => Status::NoMemory,
        }
    }
}
