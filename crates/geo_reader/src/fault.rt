//! Why a text is no GeoJSON of the kind that is read.

ghost use Rattle.std.specs.Prelude.{◌≡◌};
ghost use Rattle.json_scan.specs.Tree.{place_of};
ghost use Rattle.json_scan.specs.Shown.{tree};
ghost use Rattle.geo_reader.specs.declared.fault.GeoFault.TheVariants.{NoMemory};

use json_scan::Value;
use std::alloc::{AllocError, AllocFailed};
use thiserror::Error;
use topo_reader::{OffKind, What};

/// Why a text is no GeoJSON (RFC 7946), or not of the kind that is read.
#[derive(Clone, Copy, Debug, PartialEq, Eq)]
pub enum GeoKind {
    /// The top value is no object; at it.
    NotObject,
    /// A required member is absent; at its object.
    Missing,
    /// A member that is read stands twice; at the second name.
    Twice,
    /// A value of another type than the format has there; at the value.
    WrongType,
    /// The `type` of a feature is not `Feature`, or that of a geometry none of the five names that
    /// are read; at the value of `type`.
    UnknownType,
    /// A ring of fewer than four positions; at the ring.
    ShortRing,
    /// A ring whose last position is not its first; at the ring.
    OpenRing,
}

/// The first fault of a text, with its place in bytes from 0, or want of memory.
#[derive(Clone, Copy, Debug, PartialEq, Eq, Error)]
pub enum GeoFault {
    /// The text is no GeoJSON of the kind that is read.
    #[error("not GeoJSON, at byte {at}")]
    Shape { kind: GeoKind, at: u32 },
    /// A position is not two whole numbers on the grid.
    #[error("outside the profile, at byte {at}")]
    Off { kind: OffKind, at: u32 },
    /// One more than the limit of what is counted; at the value, for a polygon at its object.
    #[error("too many, at byte {at}")]
    TooMany { what: What, at: u32 },
    #[error("no memory")]
    NoMemory,
}

impl<T: Drop> From<AllocFailed<T>> for GeoFault {
    ghost from_gives = { λ _ e. e ≡ NoMemory };

    fn from(_error: AllocFailed<T>) -> GeoFault {
        GeoFault::NoMemory
    }
}

impl From<AllocError> for GeoFault {
    ghost from_gives = { λ _ e. e ≡ NoMemory };

    fn from(_error: AllocError) -> GeoFault {
        GeoFault::NoMemory
    }
}

/// A fault of shape at a value.
pub(crate) fn wrong(kind: GeoKind, value: Value<'_>) -> GeoFault
    ensures { result ≡ GeoFault.Shape kind (place_of (tree value.entry)) }
{
    GeoFault::Shape {
        kind,
        at: value.start(),
    }
}

/// One value more than the limit.
pub(crate) fn too_many(what: What, value: Value<'_>) -> GeoFault
    ensures { result ≡ GeoFault.TooMany what (place_of (tree value.entry)) }
{
    GeoFault::TooMany {
        what,
        at: value.start(),
    }
}
