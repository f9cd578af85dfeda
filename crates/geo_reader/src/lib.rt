//! GeoJSON (RFC 7946) of polygons and points from the nodes of a JSON text, with whole coordinates.
//!
//! The reader walks once, from left to right, and the first fault that it meets is the answer. A
//! value is walked whole before the next member is looked for; members that are not named here are
//! not read.
//!
//! 1. The top value is an object. It is a `FeatureCollection` with a list of `features`, or a
//!    `Feature`, or else a geometry.
//! 2. A feature has a `geometry`, which may be `null`. It may have an `id`, a text or a number, and
//!    `properties`, `null` or an object; they are looked for in this order.
//! 3. A geometry is a `Point`, `MultiPoint`, `Polygon` or `MultiPolygon` with `coordinates`, or a
//!    `GeometryCollection` with a list of `geometries`. Lines are refused.
//! 4. A ring is a list of four or more positions, and its last is its first. A position is two
//!    whole numbers from `-2^29` to `2^29`.
//!
//! There are at most `2^19` positions of rings and `2^20` points and polygons, a `MultiPolygon`
//! being one polygon; each is counted before it is looked at.
#![tactic(auto)]

mod collection;
mod fault;
mod feature;
mod geo;
mod geometries;
mod geometry;
mod items;
mod member;
mod point;
mod reader;
mod ring;
mod rings;

pub use fault::{GeoFault, GeoKind};
pub use geo::GeoMap;
pub use reader::read_geo;
