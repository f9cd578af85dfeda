//! What a run is given besides the map.
use arc_map::ArcList;
use grid_exact::{Bound, Weights};

/// What a run is given besides the map.
#[derive(Drop)]
pub struct Terms {
    /// the arcs that are held: their chains stay
    pub held: ArcList,
    /// how far a skipped vertex may be from the edge that skips it, in grid units
    pub bound: Bound,
    /// what each coordinate counts in a distance
    pub weights: Weights,
}
