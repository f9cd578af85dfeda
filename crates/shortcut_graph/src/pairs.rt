//! Whether a pair of vertices of a chain is allowed.
ghost use Rattle.std.specs.Prelude.{◌≡◌, ◌↔◌, ◌<◌, IsTrue, length};
ghost use Rattle.shortcut_graph.specs.Doubles.{IsDoubled};
ghost use Rattle.shortcut_graph.specs.Pairs.{AllowedBy, AreFindings, IsReady};

use crate::course::Course;
use crate::doubles::is_doubled;
use crate::hints::Hints;
use crate::ruler::Ruler;
use map_index::IndexedMap;
use side_wedge::Beside;

/// What is known of the pairs of a chain under search.
#[derive(Clone, Copy)]
pub(crate) struct Findings {
    pub(crate) course: Course,
    pub(crate) hints: Hints,
}

/// Whether the pair of `start` and `end` of chain number `k` is allowed.
pub(crate) fn allows(
    map: &IndexedMap,
    k: u32,
    beside: &Beside,
    ruler: &Ruler<'_>,
    findings: &mut Findings,
    start: usize,
    end: usize,
) -> bool
    requires ready { IsReady map.now k beside.now ruler.now.weights ruler.now.bound
        ruler.now.xs.now ruler.now.ys.now }
    requires findings { AreFindings findings.old map.now k ruler.now.xs.now ruler.now.ys.now
        ruler.now.bound }
    requires order { start < end }
    requires within { end < length ruler.now.xs.now }
    ensures allowed { IsTrue result ↔ AllowedBy map.now k ruler.now.xs.now ruler.now.ys.now
        ruler.now.bound start end }
    ensures findings { AreFindings findings.new map.now k ruler.now.xs.now ruler.now.ys.now
        ruler.now.bound }
{
    if end == start + 1 {
        return true;
    }
    if !findings.hints.is_near(ruler, start, end) {
        return false;
    }
    if has_double(map, k, start, end, ruler.xs.len() - 1) {
        return false;
    }
    beside.is_consistent(map, k, start, end)
}

// Whether an edge of another chain has both vertices of chain number `k` as its ends. Only the
// first vertex of a clear chain and the last may be such.
fn has_double(map: &IndexedMap, k: u32, start: usize, end: usize, last: usize) -> bool
    requires { k < length map.now.chains }
    ensures { IsTrue result ↔ ((start ≡ 0) × (end ≡ last) × IsDoubled map.now.chains k) }
{
    start == 0 && end == last && is_doubled(map, k)
}
