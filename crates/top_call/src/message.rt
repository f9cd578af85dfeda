//! The line that tells a status. Writing it takes no memory.
ghost use Rattle.std.specs.Prelude.{◌≡◌, ◌++◌, IsTrue, OnOk, OnErr, codes, decimal};
ghost use Rattle.outside_io.specs.Causes.{HasCause};
ghost use Rattle.outside_io.specs.Texts.{AppendsPrefix};
ghost use Rattle.top_call.specs.Parts.{spelled};
ghost use Rattle.top_call.specs.Messages.{message_of, usage_line, shape_words, geo_words};
ghost use Rattle.top_call.specs.Messages.{what_words, role_words, limit_line, edges_line};
ghost use Rattle.top_call.specs.Messages.{point_line, meeting_line, off_weights_line};
ghost use Rattle.top_call.specs.Messages.{no_polygon_line, off_words};

use crate::parts::{END, Line, NONE, Part, line, numbered, plain, write_parts};
use crate::status::{Limit, Meeting, Role, Status};
use arc_map::EdgeRef;
use geo_reader::GeoKind;
use outside_io::{Failed, Sink};
use topo_reader::{OffKind, ShapeKind, What};

fn shape_words(kind: ShapeKind) -> &'static str
    ensures { result.now ≡ shape_words kind }
{
    match kind {
        ShapeKind::NotObject => "not an object",
        ShapeKind::Missing => "missing member",
        ShapeKind::Twice => "member twice",
        ShapeKind::WrongType => "wrong type",
        ShapeKind::ShortArc => "short arc",
        ShapeKind::BadTransform => "bad transform",
        ShapeKind::BadArcIndex => "bad arc index",
        ShapeKind::Unjoined => "unjoined",
        ShapeKind::OpenRing => "open ring",
        ShapeKind::UnknownGeometry => "unknown geometry",
    }
}

fn geo_words(kind: GeoKind) -> &'static str
    ensures { result.now ≡ geo_words kind }
{
    match kind {
        GeoKind::NotObject => "not an object",
        GeoKind::Missing => "missing member",
        GeoKind::Twice => "member twice",
        GeoKind::WrongType => "wrong type",
        GeoKind::UnknownType => "unknown type",
        GeoKind::ShortRing => "short ring",
        GeoKind::OpenRing => "open ring",
    }
}

fn off_words(kind: OffKind) -> &'static str
    ensures { result.now ≡ off_words kind }
{
    match kind {
        OffKind::NotWhole => "not whole",
        OffKind::Extra => "extra number",
        OffKind::OffGrid => "off the grid",
    }
}

fn what_words(what: What) -> &'static str
    ensures { result.now ≡ what_words what }
{
    match what {
        What::Arcs => "arcs",
        What::Positions => "positions",
        What::Points => "points",
        What::Polygons => "polygons",
        What::References => "references",
    }
}

fn role_words(role: Role) -> &'static str
    ensures { result.now ≡ role_words role }
{
    match role {
        Role::File => "FILE",
        Role::Out => "OUT",
        Role::Cert => "CERT",
    }
}

// The usage of the command, with its line feed.
#[tactic(auto, unfolding(crate::specs::Messages::usage_line))]
fn usage() -> &'static str
    ensures { result.now ≡ usage_line }
{
    concat!(
        "usage: simplify [--hold] [--weights WX WY] E FILE, ",
        "layers [--hold] [--weights WX WY] E FILE, ",
        "check [--hold] [--weights WX WY] E FILE OUT CERT, ",
        "faces FILE, make R C SEED, demo R C SEED E, dissolve LIST FILE, ",
        "build FILE, pyramid BOUNDS FILE\n",
    )
}

// A line of words, and what they speak of.
fn about(words: &'static str, what: &'static str) -> Line
    ensures { spelled result ≡ words.entry.now ++ what.entry.now ++ codes "\n" }
{
    line([Part::Words(words), Part::Words(what), END, NONE, NONE])
}

// A line of words, what they speak of, and a place.
fn placed(words: &'static str, what: &'static str, at: u32) -> Line
    ensures { spelled result ≡ words.entry.now ++ what.entry.now ++ codes " at "
        ++ decimal at ++ codes "\n" }
{
    line([
        Part::Words(words),
        Part::Words(what),
        Part::Words(" at "),
        Part::Number(at),
        END,
    ])
}

// The line that tells of a limit.
fn limit_line(limit: Limit) -> Line
    ensures { spelled result ≡ limit_line limit }
{
    match limit {
        Limit::Text(role) => about("too large: ", role_words(role)),
        Limit::Depth(at) => placed("too large: ", "depth", at),
        Limit::Many(what, at) => placed("too large: ", what_words(what), at),
    }
}

// The line that tells of two edges that clash.
fn edges_line(e: EdgeRef, f: EdgeRef) -> Line
    ensures { spelled result ≡ edges_line e f }
{
    [
        Part::Words("arc "),
        Part::Number(e.arc),
        Part::Words(" edge "),
        Part::Number(e.at),
        Part::Words(" meets arc "),
        Part::Number(f.arc),
        Part::Words(" edge "),
        Part::Number(f.at),
        END,
    ]
}

// The line that tells of a feature point on an edge.
fn point_line(point: u32, e: EdgeRef) -> Line
    ensures { spelled result ≡ point_line point e }
{
    [
        Part::Words("point "),
        Part::Number(point),
        Part::Words(" lies on arc "),
        Part::Number(e.arc),
        Part::Words(" edge "),
        Part::Number(e.at),
        END,
        NONE,
        NONE,
    ]
}

// The line that tells of a meeting.
fn meeting_line(meeting: Meeting) -> Line
    ensures { spelled result ≡ meeting_line meeting }
{
    match meeting {
        Meeting::Edges(e, f) => edges_line(e, f),
        Meeting::PointOnArc(point, e) => point_line(point, e),
    }
}

// The line that tells of a position that the weights take off the grid.
fn off_weights_line(arc: u32, position: u32) -> Line
    ensures { spelled result ≡ off_weights_line arc position }
{
    line([
        Part::Words("weights take arc "),
        Part::Number(arc),
        Part::Words(" position "),
        Part::Number(position),
        Part::Words(" off the grid\n"),
    ])
}

// The line that tells of a polygon that the map does not have.
fn no_polygon_line(polygon: u32) -> Line
    ensures { spelled result ≡ no_polygon_line polygon }
{
    numbered("no polygon ", polygon)
}

// The line that tells a status, empty for `Done` and `No`.
fn line_of(status: &Status) -> Line
    ensures { spelled result ≡ message_of status.now }
{
    match status {
        Status::Done | Status::No(_) => plain(""),
        Status::Usage => plain(usage()),
        Status::NotUtf8(at) => placed("text is not UTF-8", "", *at),
        Status::NotJson(at) => placed("text is not JSON", "", *at),
        Status::NotTopology(kind, at) => placed("not a topology: ", shape_words(*kind), *at),
        Status::OffProfile(kind, at) => placed("outside the profile: ", off_words(*kind), *at),
        Status::TooLarge(limit) => limit_line(*limit),
        Status::NotArranged(meeting) => meeting_line(*meeting),
        Status::ReadFault => plain("reading failed\n"),
        Status::WriteFault => plain("writing failed\n"),
        Status::NoMemory => plain("no memory\n"),
        Status::OffWeights(arc, position) => off_weights_line(*arc, *position),
        Status::NoPolygon(polygon) => no_polygon_line(*polygon),
        Status::NotGeoJson(kind, at) => placed("not GeoJSON: ", geo_words(*kind), *at),
    }
}

/// Writes the line that tells the status, nothing for `Done` and `No`. `Failed` says that a write
/// failed, and then a prefix of the line was written.
pub fn tell<S: Sink>(sink: &mut S, status: &Status) -> Result<(), Failed>
    ensures ok { IsTrue S.tells → OnOk result
        (S.written sink.new ≡ S.written sink.old ++ message_of status.now) }
    ensures failed { IsTrue S.tells
        → OnErr result (AppendsPrefix (S.written sink.old) (S.written sink.new)
        (message_of status.now)) }
    ensures cause { HasCause (S.faults sink.old) (S.faults sink.new) result }
{
    write_parts(sink, &line_of(status))
}
