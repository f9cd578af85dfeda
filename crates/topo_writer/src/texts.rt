//! Numbers and positions at the end of a text.
ghost use Rattle.std.specs.Prelude.{◌≡◌, ◌+◌, ◌≤◌, ◌++◌, OnOk, vec_len};
ghost use Rattle.std.specs.Fmt.{signed_decimal};
ghost use Rattle.topo_writer.specs.Texts.{position_text, IsDifference};

use itoa::Buffer;
use std::alloc::AllocError;

/// Adds the shortest decimal of the number to the text: at most 11 bytes for a difference of
/// coordinates. The only error is want of memory.
#[tactic(auto, using(crate::proofs::Lengths::short_difference))]
pub fn write_number(out: &mut Vec<u8>, n: i64) -> Result<(), AllocError>
    ensures text { OnOk result (out.new.items ≡ out.old.items ++ signed_decimal n) }
    ensures short { OnOk result (IsDifference n → vec_len out.new ≤ vec_len out.old + 11) }
{
    let mut buffer = Buffer::new();
    out.extend_from_slice(buffer.format(n).as_bytes())?;
    Ok(())
}

/// Adds `[x,y]` to the text: at most 25 bytes where both are differences of coordinates. The only
/// error is want of memory; the text may then end in a part of it.
pub fn write_position(out: &mut Vec<u8>, x: i64, y: i64) -> Result<(), AllocError>
    ensures text { OnOk result (out.new.items ≡ out.old.items ++ position_text (record {
      x = x;
      y = y;
    })) }
    ensures short { OnOk result (IsDifference x → IsDifference y
        → vec_len out.new ≤ vec_len out.old + 25) }
{
    out.push(b'[')?;
    write_number(out, x)?;
    out.push(b',')?;
    write_number(out, y)?;
    out.push(b']')?;
    Ok(())
}
