//! A map that is arranged.
ghost use Rattle.std.specs.Prelude.{◌≡◌};
ghost use Rattle.arc_map.specs.Arranged.{IsArranged};

use arc_map::ArcMap;
use std::marker::Model;

/// A map that is arranged: no two of its edges clash, and no feature point lies on an edge.
/// Contracts see the map.
#[derive(Drop)]
pub struct Arranged {
    map: ArcMap,
}

impl Model for Arranged {
    ghost use Rattle.arc_map.specs.Map.{Map};
    ghost use Rattle.arc_map.specs.Arranged.{IsArranged};

    ghost Value = { Map };

    ghost view = { λ a. a.map };

    ghost invariant = { λ a. IsArranged a.map };
}

impl Arranged {
    /// The arranged map.
    pub fn map(&self) -> &ArcMap
        ensures same { result.now ≡ self.now }
        ensures arranged { IsArranged self.now }
    {
        &self.map
    }

    /// The map itself.
    pub fn into_map(self) -> ArcMap
        ensures { result ≡ self }
    {
        self.map
    }

    /// The map as an arranged one.
    pub fn adopt(map: ArcMap) -> Arranged
        requires { IsArranged map }
        ensures { result ≡ map }
    {
        Arranged { map }
    }
}
