//! A whole text: its scan, or why it has none.

ghost use Rattle.std.specs.Prelude.{◌≡◌, ◌⊎◌, ◌≤◌, ◌^◌, length, IfOk, IfErr, MatchResult};
ghost use Rattle.json_scan.specs.declared.walk.ScanError.TheVariants.{NoMemory};
ghost use Rattle.std.specs.Str.{IsUtf8};
ghost use Rattle.json_scan.specs.Grammar.{Document, IsDocument, value_depth, document_text};
ghost use Rattle.json_scan.specs.Grammar.{document_nodes};
ghost use Rattle.json_scan.specs.declared.walk.ScanError.{ScanError};
ghost use Rattle.json_scan.specs.Scans.{HasNodes};
ghost use Rattle.json_scan.specs.Places.{IsRefusedFor, IsRefusal};

use crate::view::Scan;
use crate::walk::{ScanError, nodes_of};
use std::alloc::Global;

/// Scans a JSON text (RFC 8259): the nodes of its values and member names, in order of their
/// places.
///
/// A text is UTF-8, may begin with a byte order mark, and holds Lists and Objects at most 64 deep.
/// Every other text is refused, at a place that `ScanError` tells.
pub fn scan<'a>(alloc: Global, text: &'a [u8]) -> Result<Scan<'a>, ScanError>
    requires { length text.now ≤ 2 ^ 26 }
    ensures text { IfOk result (λ s. s.bytes ≡ text.now) }

    // What is read is JSON of depth at most 64, with these nodes.
    ensures found { IfOk result (λ s. HasNodes s.bytes s.nodes) }

    // What is JSON of depth at most 64 is read, unless memory runs out.
    ensures only { (d : Document) → IsUtf8 text.now → IsDocument d → value_depth d.value ≤ 64
        → text.now ≡ document_text d →
        MatchResult result (λ s. s.nodes ≡ document_nodes d) (λ e. e ≡ NoMemory) }

    // Why a text is refused, and where.
    ensures refused { IfErr result (λ e. (e ≡ NoMemory) ⊎ IsRefusedFor text.now e) }

    // What is refused for a reason is refused with it, unless memory runs out.
    ensures exactly { (e : ScanError) → IsRefusedFor text.now e → IsRefusal result e }
{
    match nodes_of(alloc, text) {
        Ok(nodes) => Ok(Scan::new(text, nodes)),
        Err(error) => Err(error),
    }
}
