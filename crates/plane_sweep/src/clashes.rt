//! The first pair of edges of a map that clash.
ghost use Rattle.std.specs.Prelude.{IfNone, IfSome};
ghost use Rattle.arc_map.specs.Arranged.{HasNoClash};
ghost use Rattle.sweep_index.specs.EdgeIndex.{IsIndexOf};
ghost use Rattle.plane_sweep.specs.Answers.{IsClash};

use arc_map::{ArcMap, EdgeRef};
use arrangement_check::edges_clash;
use sweep_index::EdgeIndex;

// A pair of edges that clash, the lesser first.
pub fn first_clash(map: &ArcMap, index: &EdgeIndex) -> Option<(EdgeRef, EdgeRef)>
    requires { IsIndexOf map.now index.now }
    ensures clash { IfSome result (λ pair. IsClash map.now pair.0 pair.1) }
    ensures none { IfNone result (HasNoClash map.now) }
{
    let mut pairs = index.pairs();
    while let Some((e, f)) = pairs.next() {
        if edges_clash(map, e, f) {
            return Some((e, f));
        }
    }
    None
}
