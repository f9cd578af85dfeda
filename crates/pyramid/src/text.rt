//! The text of ranks.
ghost use Rattle.std.specs.Prelude.{◌≡◌, ◌++◌, OnOk, map, codes};
ghost use Rattle.std.specs.Fmt.{signed_decimal};
ghost use Rattle.topo_writer.specs.Texts.{list_text};
ghost use Rattle.pyramid.specs.Places.{lists_of};
ghost use Rattle.pyramid.specs.Texts.{numbers_text, ranks_text};
ghost use Rattle.pyramid.specs.Written.{comma};

use grid_exact::Bound;
use std::alloc::AllocError;
use topo_writer::write_number;

// Adds the text of the ranks by the levels of these bounds.
pub(crate) fn write_text(
    out: &mut Vec<u8>,
    bounds: &[Bound],
    ranks: &[Vec<u32>],
) -> Result<(), AllocError>
    ensures { OnOk result (out.new.items
        ≡ out.old.items ++ ranks_text bounds.now (lists_of ranks.now)) }
{
    out.extend_from_slice(b"{\"bounds\":")?;
    write_bounds(out, bounds)?;
    out.extend_from_slice(b",\"ranks\":")?;
    write_ranks(out, ranks)?;
    out.push(b'}')?;
    Ok(())
}

// Adds the list of the bounds.
fn write_bounds(out: &mut Vec<u8>, bounds: &[Bound]) -> Result<(), AllocError>
    ensures { OnOk result (out.new.items
        ≡ out.old.items ++ list_text (map signed_decimal bounds.now)) }
{
    out.push(b'[')?;
    for (k, bound) in bounds.iter().enumerate() {
        write_comma(out, k)?;
        write_number(out, bound.value())?;
    }
    out.push(b']')?;
    Ok(())
}

// Adds the list of the lists of the arcs.
fn write_ranks(out: &mut Vec<u8>, ranks: &[Vec<u32>]) -> Result<(), AllocError>
    ensures { OnOk result (out.new.items
        ≡ out.old.items ++ list_text (map numbers_text (lists_of ranks.now))) }
{
    out.push(b'[')?;
    for (k, list) in ranks.iter().enumerate() {
        write_comma(out, k)?;
        write_numbers(out, list.as_slice())?;
    }
    out.push(b']')?;
    Ok(())
}

// Adds the list of the numbers.
fn write_numbers(out: &mut Vec<u8>, numbers: &[u32]) -> Result<(), AllocError>
    ensures { OnOk result (out.new.items ≡ out.old.items ++ numbers_text numbers.now) }
{
    out.push(b'[')?;
    for (k, number) in numbers.iter().enumerate() {
        write_comma(out, k)?;
        write_number(out, i64::from(*number))?;
    }
    out.push(b']')?;
    Ok(())
}

// Adds a comma before each entry but the first, number 0.
fn write_comma(out: &mut Vec<u8>, k: usize) -> Result<(), AllocError>
    ensures { OnOk result (out.new.items ≡ out.old.items ++ comma k) }
{
    if k > 0 {
        out.push(b',')?;
    }
    Ok(())
}
