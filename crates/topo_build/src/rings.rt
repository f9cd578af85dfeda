//! The references of rings to arcs.
ghost use Rattle.std.specs.Prelude.{◌≡◌, ◌<◌, Some, length, map, slice_get};

use std::marker::Model;

/// For each ring the references to its arcs in order, as TopoJSON 1.0 numbers them: `k` is arc `k`
/// forwards, and `-1 - k` is arc `k` backwards. Contracts see the list of these lists.
#[derive(Drop)]
pub struct Rings {
    rings: Vec<Vec<i32>>,
}

impl Model for Rings {
    ghost use Rattle.std.specs.Prelude.{List, ℤ, map};

    ghost Value = { List (List ℤ) };

    ghost view = { λ r. map (λ refs. refs.items) r.rings.items };
}

impl Rings {
    // These rings.
    pub(crate) fn new(rings: Vec<Vec<i32>>) -> Rings
        ensures { result ≡ map (λ refs. refs.items) rings.items }
    {
        Rings { rings }
    }

    /// How many rings there are.
    pub fn count(&self) -> usize
        ensures { result ≡ length self.now }
    {
        self.rings.len()
    }

    /// The references of ring number `ring`, from 0, in the order of the ring.
    pub fn ring(&self, ring: usize) -> &[i32]
        requires { ring < length self.now }
        ensures { slice_get self.now ring ≡ Some result.now }
    {
        self.rings[ring].as_slice()
    }
}
