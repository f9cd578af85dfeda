//! What items belong to.
ghost use Rattle.std.specs.Prelude.{◌↔◌, IsTrue};
ghost use Rattle.map_index.specs.Items.{IsOther};

use sweep_index::Owner;

/// Whether an item of this owner is a feature point, or of another chain than chain number `k`.
pub fn is_other(owner: Owner, k: u32) -> bool
    ensures { IsTrue result ↔ IsOther k owner }
{
    match owner {
        Owner::Town => true,
        Owner::Chain(chain) => chain != k,
    }
}
