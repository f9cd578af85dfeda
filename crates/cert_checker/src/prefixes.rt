//! Where two lists first differ.
ghost use Rattle.std.specs.Prelude.{◌≡◌, ◌≤◌, ◌^◌, ◌↔◌, IfSome, IsNone, length};
ghost use Rattle.cert_checker.specs.Difference.{IsFirstDifference};

use arc_map::ArcList;

/// The length of the longest common prefix of the two texts, or None where they are equal.
pub fn compare(expected: &[u8], got: &[u8]) -> Option<u32>
    requires expected { length expected.now ≤ 2 ^ 27 }
    requires got { length got.now ≤ 2 ^ 27 }
    ensures equal { IsNone result ↔ (expected.now ≡ got.now) }
    ensures first { IfSome result (IsFirstDifference expected.now got.now) }
{
    let common = expected.len().min(got.len());
    for at in 0..common {
        if expected[at] != got[at] {
            return Some(at as u32);
        }
    }
    if expected.len() == got.len() {
        None
    } else {
        Some(common as u32)
    }
}

// The place where the two lists of arcs first differ, or None where they are equal.
pub(crate) fn compare_arcs(listed: &ArcList, held: &ArcList) -> Option<u32>
    ensures equal { IsNone result ↔ (listed.now ≡ held.now) }
    ensures first { IfSome result (IsFirstDifference listed.now held.now) }
{
    let common = listed.count().min(held.count());
    for at in 0..common {
        if listed.get(at) != held.get(at) {
            return Some(at);
        }
    }
    if listed.count() == held.count() {
        None
    } else {
        Some(common)
    }
}
