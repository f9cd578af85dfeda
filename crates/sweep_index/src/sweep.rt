//! The sweep over things in bands: which boxes meet.
ghost use Rattle.std.specs.Prelude.{◌≡◌, ◌≤◌, ◌<◌, ◌^◌, ◌∷◌, [], ℕ, true, length, slice_index_or};
ghost use Rattle.std.specs.Prelude.{IfSome, IfNone};
ghost use Rattle.std.specs.List.Sorted.{IsNonDecreasingBy};
ghost use Rattle.sweep_index.specs.Things.{key_of};
ghost use Rattle.sweep_index.specs.declared.things.Banded.{Banded};
ghost use Rattle.sweep_index.specs.Meetings.{is_behind, is_met};

use crate::things::Banded;

// Pairs of things in one band whose boxes meet. A pair that meets in several bands comes in the
// lowest of them alone.
#[derive(Clone, Copy)]
pub struct Sweep<'a> {
    // The first of these is compared with the others after it, of which so many are passed already.
    pub rest: &'a [Banded],
    pub passed: usize,
    // The bands are 2 to this power high.
    pub shift: u32,
    pub ghost short: { shift < 32 },
    pub ghost sorted: { IsNonDecreasingBy key_of rest.now },
}

impl<'a> Sweep<'a> {
    ghost use Rattle.sweep_index.specs.Sweeping.{meetings_left};

    // The next pair, and the sweep after it.
    pub fn next_meeting(self) -> Option<(Banded, Banded, Sweep<'a>)>
        ensures steps { IfSome result (λ r. meetings_left self.entry ≡ (r.0, r.1)
            ∷ meetings_left r.2) }
        ensures none { IfNone result (meetings_left self.entry ≡ []) }
    {
        let shift = self.shift;
        let mut rest = self.rest;
        let mut passed = self.passed;
        while let Some((head, others)) = rest.split_first() {
            if let Some(k) = first_met(head, others, passed, shift) {
                let after = Sweep {
                    rest,
                    passed: k + 1,
                    shift,
                };
                return Some((*head, others[k], after));
            }
            rest = others;
            passed = 0;
        }
        None
    }
}

// The place of the first of the others from `from` on that meets the head in this band, if one
// does.
fn first_met(head: &Banded, others: &[Banded], from: usize, shift: u32) -> Option<usize>
    requires short { shift < 32 }
    requires sorted { IsNonDecreasingBy key_of (head.now ∷ others.now) }
    ensures within { IfSome result (λ k. (from ≤ k) × (k < length others.now)) }
    ensures found { IfSome result (λ k. (d : Banded)
        → is_met (2 ^ shift) (head.now, slice_index_or others.now k d) ≡ true) }
    ensures none_before { IfSome result (λ n. (k : ℕ) → from ≤ k → k < n
        → ¬ ((d : Banded) → is_met (2 ^ shift) (head.now, slice_index_or others.now k d) ≡ true)) }
    ensures none { IfNone result ((k : ℕ) → from ≤ k → k < length others.now
        → ¬ ((d : Banded) → is_met (2 ^ shift) (head.now, slice_index_or others.now k d) ≡ true)) }
{
    for k in from..others.len() {
        let other = &others[k];
        if is_past(head, other) {
            return None;
        }
        if meet_here(head, other, shift) {
            return Some(k);
        }
    }
    None
}

// Whether the other thing, and so each later one, meets the head no more.
fn is_past(head: &Banded, other: &Banded) -> bool
    ensures { result ≡ is_behind head.now other.now }
{
    other.band != head.band || head.extent.east < other.extent.west
}

// Whether the two things meet, and this band of both is the lowest such band.
fn meet_here(head: &Banded, other: &Banded, shift: u32) -> bool
    requires { shift < 32 }
    ensures { result ≡ is_met (2 ^ shift) (head.now, other.now) }
{
    other.band == head.band
        && (head.extent.meets(&other.extent)
            && head.extent.south.max(other.extent.south) >> shift == head.band)
}
