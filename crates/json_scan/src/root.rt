//! The value of a text.

ghost use Rattle.std.specs.Prelude.{◌≡◌};
ghost use Rattle.json_scan.specs.Grammar.{Document, IsJson};
ghost use Rattle.json_scan.specs.Tree.{NodeIs, document_tree};
ghost use Rattle.json_scan.specs.Shown.{tree};

use crate::value::{Value, value_at};
use crate::view::Scan;

/// The value that a text is.
pub fn value_of<'a>(scan: &'a Scan<'_>) -> Value<'a>
    ensures tree { (d : Document) → IsJson 64 scan.now.bytes scan.now.nodes d
        → tree result ≡ document_tree d }

    // It stands in the text.
    ensures stands { NodeIs scan.now 0 (tree result) }
{
    let _ = scan.count();
    value_at(scan, 0)
}
