//! The way from vertex to next vertex.
ghost use Rattle.std.specs.Prelude.{◌≡◌, ◌+◌, ◌<◌, ◌≤◌, ℕ, length, take, drop, slice_index};
ghost use Rattle.layer_paths.specs.Lay.{GoesOn, IsTrail};

use grid_exact::MAX_CHAIN_VERTICES;

// Writes the vertices from 0 to the last, each the next of the one before it, to the front of
// `out`, and answers how many they are. The rest of `out` stays.
pub fn write_trail(nexts: &[usize], last: usize, out: &mut [u32]) -> usize
    requires size { last < MAX_CHAIN_VERTICES }
    requires within { last < length nexts.now }
    requires room { last < length out.old }
    requires on { GoesOn nexts.now last }
    ensures within { result ≤ last + 1 }
    ensures trail { IsTrail nexts.now last (take result out.new) }
    ensures rest { drop result out.new ≡ drop result out.old }
{
    out[0] = 0;
    let mut at = 0;
    let mut count = 1;
    while at < last {
        at = nexts[at];
        out[count] = at as u32;
        count += 1;
    }
    count
}
