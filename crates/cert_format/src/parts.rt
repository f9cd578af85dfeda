//! Cuts a text at single bytes, and counts them.
ghost use Rattle.std.specs.Prelude.{◌≡◌, ◌≤◌, ◌<◌, ◌+◌, ◌++◌, ◌∷◌, [], ℕ, List, IsTrue, ◌↔◌, Some};
ghost use Rattle.std.specs.Prelude.{true, length, slice_get};
ghost use Rattle.cert_format.specs.Parts.{behind_comma, count, lacks};

/// How often the byte stands in the text.
pub(crate) fn count_of(text: &[u8], byte: u8) -> usize
    ensures { result ≡ count byte text.now }
{
    let mut count = 0;
    for b in text {
        if *b == byte {
            count += 1;
        }
    }
    count
}

// The place just behind the first such byte, or the length of the text where there is none.
fn end_of_first(text: &[u8], byte: u8) -> usize
    ensures within { result ≤ length text.now }
    ensures some { 0 < length text.now → 0 < result }
    ensures first { (front rest : List ℕ) → lacks byte front ≡ true →
        text.now ≡ front ++ byte ∷ rest → result ≡ length front + 1 }
{
    for k in 0..text.len() {
        if text[k] == byte {
            return k + 1;
        }
    }
    text.len()
}

/// The text up to its first such byte and with it, and what follows that; all of it and nothing
/// where there is none.
pub(crate) fn cut_behind(text: &[u8], byte: u8) -> (&[u8], &[u8])
    ensures shorter { 0 < length text.now → length result.1.now < length text.now }
    ensures parts { (front rest : List ℕ) → lacks byte front ≡ true →
        text.now ≡ front ++ byte ∷ rest →
        (result.0.now ≡ front ++ byte ∷ []) × (result.1.now ≡ rest) }
{
    text.split_at(end_of_first(text, byte))
}

/// Whether the text begins with the byte.
pub(crate) fn begins(text: &[u8], byte: u8) -> bool
    ensures { IsTrue result ↔ (slice_get text.now 0 ≡ Some byte) }
{
    text.first() == Some(&byte)
}

/// What follows the comma that the text begins with, or the whole text where it begins with none.
pub(crate) fn behind_comma(text: &[u8]) -> &[u8]
    ensures shorter { length result.now ≤ length text.now }
    ensures rest { result.now ≡ behind_comma text.now }
{
    if begins(text, b',') {
        return &text[1..];
    }
    text
}
