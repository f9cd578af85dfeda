//! Texts of bytes: how they are made of pieces, and where two of them differ.
ghost use Rattle.std.specs.Prelude.{◌≡◌, ◌++◌, ◌↔◌, OnOk, IfSome, IsNone};
ghost use Rattle.std.specs.List.{repeat};
ghost use Rattle.row_reader.specs.Difference.{IsFirstDifference};

use std::alloc::{AllocError, Global};

/// The place where the two texts first differ, or None where they are equal. A text that ends
/// before the other one differs from it at its end.
pub fn first_difference(expected: &[u8], got: &[u8]) -> Option<usize>
    ensures equal { IsNone result ↔ (expected.now ≡ got.now) }
    ensures first { IfSome result (IsFirstDifference expected.now got.now) }
{
    let common = expected.len().min(got.len());
    for at in 0..common {
        if expected[at] != got[at] {
            return Some(at);
        }
    }
    if expected.len() == got.len() {
        None
    } else {
        Some(common)
    }
}

/// Adds a piece so many times. The only error is want of memory.
pub fn push_piece(
    alloc: Global,
    bytes: &mut Vec<u8>,
    count: usize,
    piece: &str,
) -> Result<(), AllocError>
    ensures { OnOk result (bytes.new.items ≡ bytes.old.items ++ repeat count piece.now) }
{
    let repeated = match piece.repeat(alloc, count) {
        Ok(repeated) => repeated,
        Err(error) => return Err(error),
    };
    bytes.extend_from_slice(repeated.as_bytes())
}
