//! A text with a part replaced.
ghost use Rattle.std.specs.Prelude.{◌≡◌, ◌≤◌, ◌+◌, ◌-◌, IfOk, length, vec_len};
ghost use Rattle.topo_writer.specs.Splice.{spliced};

use arc_map::NoMemory;
use std::alloc::Global;
use topo_reader::Span;

/// The text before the span, then `arcs`, then the text behind the span. The only error is want of
/// memory.
pub fn splice(alloc: Global, text: &[u8], span: Span, arcs: &[u8]) -> Result<Vec<u8>, NoMemory>
    requires order { span.start ≤ span.end }
    requires within { span.end ≤ length text.now }
    ensures { IfOk result (λ out. out.items ≡ spliced text.now span.start span.end arcs.now) }
{
    let before = &text[..span.start as usize];
    let behind = &text[span.end as usize..];
    let mut out = Vec::with_capacity(alloc, before.len() + arcs.len() + behind.len())?;
    out.extend_from_slice(before)?;
    out.extend_from_slice(arcs)?;
    out.extend_from_slice(behind)?;
    Ok(out)
}
