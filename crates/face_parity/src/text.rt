//! Bytes and numbers at the end of a text that has room for them.
ghost use Rattle.std.specs.Prelude.{◌≡◌, ◌<◌, ◌≤◌, ◌+◌, ◌^◌, ◌++◌, IfOk, length, vec_len};
ghost use Rattle.std.specs.Prelude.{vec_capacity, decimal};
ghost use Rattle.std.specs.Fmt.{signed_decimal};
ghost use Rattle.grid_exact.specs.Geometry.{IsGridNumber};

use itoa::Buffer;

// Adds the piece.
pub(crate) fn put(text: &mut Vec<u8>, piece: &[u8])
    requires room { vec_len text.old + length piece.now ≤ vec_capacity text.old }
    ensures value { text.new.items ≡ text.old.items ++ piece.now }
    ensures count { vec_len text.new ≡ vec_len text.old + length piece.now }
    ensures capacity { vec_capacity text.old ≤ vec_capacity text.new }
{
    text.extend_from_slice(piece).unwrap();
}

// Adds the shortest decimal of the number of a point or a polygon.
#[tactic(auto, using(crate::proofs::Lengths::short_number))]
pub(crate) fn put_number(text: &mut Vec<u8>, n: u32)
    requires number { n < 2 ^ 20 }
    requires room { vec_len text.old + 7 ≤ vec_capacity text.old }
    ensures value { text.new.items ≡ text.old.items ++ decimal n }
    ensures short { vec_len text.new ≤ vec_len text.old + 7 }
    ensures capacity { vec_capacity text.old ≤ vec_capacity text.new }
{
    let mut buffer = Buffer::new();
    put(text, buffer.format(n).as_bytes());
}

// Adds the shortest decimal of the coordinate.
#[tactic(auto, using(crate::proofs::Lengths::short_coordinate))]
pub(crate) fn put_coordinate(text: &mut Vec<u8>, z: i64)
    requires coordinate { IsGridNumber z }
    requires room { vec_len text.old + 10 ≤ vec_capacity text.old }
    ensures value { text.new.items ≡ text.old.items ++ signed_decimal z }
    ensures short { vec_len text.new ≤ vec_len text.old + 10 }
    ensures capacity { vec_capacity text.old ≤ vec_capacity text.new }
{
    let mut buffer = Buffer::new();
    put(text, buffer.format(z).as_bytes());
}
