//! How a run ends.
ghost use Rattle.std.specs.Prelude.{◌≡◌};
ghost use Rattle.top_call.specs.Codes.{code_of};

use arc_map::EdgeRef;
use cert_checker::Reason;
use geo_reader::GeoKind;
use topo_reader::{OffKind, ShapeKind, What};

/// Which text a status speaks of.
#[derive(Clone, Copy, Debug, PartialEq, Eq)]
pub enum Role {
    /// The topology.
    File,
    /// What was written for it.
    Out,
    /// The certificate of what was written.
    Cert,
}

/// Which limit was passed.
#[derive(Clone, Copy, Debug, PartialEq, Eq)]
pub enum Limit {
    /// The text has too many bytes.
    Text(Role),
    /// A List or an Object begins here inside 64 others; in bytes from 0.
    Depth(u32),
    /// One more than the most of what is counted; at the place of the value in bytes from 0.
    Many(What, u32),
}

/// Why a map is not arranged.
#[derive(Clone, Copy, Debug, PartialEq, Eq)]
pub enum Meeting {
    /// The least pair of edges that clash: by the first, then by the second.
    Edges(EdgeRef, EdgeRef),
    /// No edges clash. This is the least feature point that lies on an edge, and the least such
    /// edge.
    PointOnArc(u32, EdgeRef),
}

/// How a run ended.
#[derive(Clone, Copy, Debug, PartialEq, Eq)]
pub enum Status {
    /// The whole bytes of the form were written.
    Done,
    /// The certificate does not hold for this reason, and the line that says so was written.
    No(Reason),
    /// The words fit no form.
    Usage,
    /// The topology's text is not UTF-8 from this place on, in bytes from 0.
    NotUtf8(u32),
    /// Its bytes before this place are the longest prefix that some JSON text begins with.
    NotJson(u32),
    /// The text is no topology, at this place.
    NotTopology(ShapeKind, u32),
    /// A position is not two whole numbers on the grid, at this place.
    OffProfile(OffKind, u32),
    /// This limit was passed.
    TooLarge(Limit),
    /// The map is not arranged, and its arcs were not to be held.
    NotArranged(Meeting),
    /// A call of the inputs failed.
    ReadFault,
    /// A write to the output failed, and a prefix of the bytes was written.
    WriteFault,
    /// Memory was wanting, before any byte went to the output.
    NoMemory,
    /// The weights take a position off the grid: the least arc of which they do, and its least such
    /// position, equal positions in a row taken once.
    OffWeights(u32, u32),
    /// The map has no polygon with this number, the first such of the list.
    NoPolygon(u32),
    /// The text is no GeoJSON of the kind that a topology is built of, at this place.
    NotGeoJson(GeoKind, u32),
}

impl Status {
    /// The number with which the program ends.
    pub fn code(&self) -> u8
        ensures { result ≡ code_of self.now }
    {
        match self {
            Status::Done => 0,
            Status::No(_) => 1,
            Status::Usage => 2,
            Status::NotUtf8(_) | Status::NotJson(_) => 3,
            Status::NotTopology(_, _) => 4,
            Status::OffProfile(_, _) => 5,
            Status::TooLarge(_) => 6,
            Status::NotArranged(_) => 7,
            Status::ReadFault => 8,
            Status::WriteFault => 9,
            Status::NoMemory => 10,
            Status::OffWeights(_, _) => 13,
            Status::NoPolygon(_) => 14,
            Status::NotGeoJson(_, _) => 15,
        }
    }
}
