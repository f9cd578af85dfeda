//! What GeoJSON holds, within the limits.
ghost use Rattle.std.specs.Prelude.{◌≡◌, ◌<◌, ◌≤◌, ◌^◌, length, slice_get};
ghost use Rattle.geo_reader.specs.Geo.{IsGeo, IsRing};

use crate::rings::RingList;
use grid_exact::Point;
use std::marker::Model;

/// The rings and the points of GeoJSON, and how many rings each polygon has.
///
/// Each ring has four or more positions, of which the last is the first. There are at most `2^19`
/// positions of rings and `2^20` points and polygons. Contracts see these lists.
#[derive(Drop)]
pub struct GeoMap {
    rings: RingList,
    points: Vec<Point>,
    polygons: Vec<u32>,
}

impl Model for GeoMap {
    ghost use Rattle.geo_reader.specs.Geo.{Geo, IsGeo};

    ghost Value = { Geo };

    ghost view = { λ g. record {
      rings = g.rings;
      points = g.points.items;
      polygons = g.polygons.items;
    } };

    ghost invariant = { λ g. IsGeo (record {
      rings = g.rings;
      points = g.points.items;
      polygons = g.polygons.items;
    }) };
}

impl GeoMap {
    // These rings, points and numbers of rings.
    pub(crate) fn new(rings: RingList, points: Vec<Point>, polygons: Vec<u32>) -> GeoMap
        requires { IsGeo (record {
          rings = rings;
          points = points.items;
          polygons = polygons.items;
        }) }
        ensures { result ≡ record {
          rings = rings;
          points = points.items;
          polygons = polygons.items;
        } }
    {
        GeoMap {
            rings,
            points,
            polygons,
        }
    }

    /// The number of rings.
    pub fn ring_count(&self) -> u32
        ensures value { result ≡ length self.now.rings }
        ensures few { result ≤ 2 ^ 17 }
        ensures is_geo { IsGeo self.now }
    {
        self.rings.count()
    }

    /// The positions of ring number `r`, in order, with the one that closes it.
    pub fn ring(&self, r: u32) -> &[Point]
        requires { r < length self.now.rings }
        ensures value { slice_get self.now.rings r ≡ Some result.now }
        ensures is_ring { IsRing result.now }
    {
        self.rings.ring(r)
    }

    /// The positions of each `Point` and `MultiPoint`, in the order of the text.
    pub fn points(&self) -> &[Point]
        ensures value { result.now ≡ self.now.points }
        ensures few { length result.now ≤ 2 ^ 20 }
    {
        self.points.as_slice()
    }

    /// For each `Polygon` and `MultiPolygon`, in the order of the text, how many rings it has.
    pub fn polygons(&self) -> &[u32]
        ensures value { result.now ≡ self.now.polygons }
        ensures few { length result.now ≤ 2 ^ 20 }
    {
        self.polygons.as_slice()
    }
}
