//! A value of a scanned text.

ghost use Rattle.std.specs.Prelude.{◌≡◌, ◌<◌, ◌+◌, ◌^◌, length};
ghost use Rattle.json_scan.specs.Tree.{node_at};

use crate::node::{Kind, Node};
use crate::view::Scan;
use crate::whole::Whole;

/// A value of a text.
#[derive(Clone, Copy)]
pub struct Value<'a> {
    pub(crate) scan: &'a Scan<'a>,
    pub(crate) node: u32,
    ghost within: { node < length scan.now.nodes },
}

/// The value of a node.
pub(crate) fn value_at<'a>(scan: &'a Scan<'a>, node: u32) -> Value<'a>
    requires { node < length scan.now.nodes }
    ensures scan { result.scan.now ≡ scan.now }
    ensures node { result.node ≡ node }
{
    Value { scan, node }
}

impl<'a> Value<'a> {
    ghost use Rattle.std.specs.Prelude.{◌≡◌, IfSome, IsTrue};
    ghost use Rattle.std.specs.Char.{is_ascii};
    ghost use Rattle.std.specs.List.{list_all};
    ghost use Rattle.json_scan.specs.Whole.{IsSmall};
    ghost use Rattle.json_scan.specs.Tree.{place_of, extent_of, kind_of, node_at, HasTree};
    ghost use Rattle.json_scan.specs.Shown.{tree};
    ghost use Rattle.json_scan.specs.Parts.{number_in, is_text};

    /// The place of the first byte, counted from 0 in the text, with a byte order mark.
    pub fn start(self) -> u32
        ensures { result ≡ place_of (tree self.entry) }
    {
        self.node().start
    }

    /// The place after the last byte.
    pub fn end(self) -> u32
        ensures { result ≡ (extent_of (tree self.entry)).end }
    {
        self.node().end
    }

    /// What the value is.
    pub fn kind(self) -> Kind
        ensures { result ≡ kind_of (tree self.entry) }
    {
        self.node().kind
    }

    /// The whole number that a Number is, if it is one; `None` where this is no Number.
    #[inline(always)]
    pub fn as_number(self) -> Option<Whole>
        ensures value { result ≡ number_in (tree self.entry) }
        ensures small { IfSome result IsSmall }
    {
        if self.node().kind != Kind::Number {
            return None;
        }
        Some(self.scan.whole(self.node))
    }

    /// Whether this is a Text and means this word, after escapes are replaced. The word is ASCII.
    pub fn text_is(self, word: &str) -> bool
        requires { IsTrue (list_all is_ascii word.now) }
        ensures { result ≡ is_text word.now (tree self.entry) }
    {
        if self.node().kind != Kind::Text {
            return false;
        }
        self.scan.text_is(self.node, word)
    }

    pub(crate) fn node(self) -> Node
        ensures value { result ≡ node_at self.entry.scan.now self.entry.node }
        ensures start { result.start ≡ place_of (tree self.entry) }
        ensures end { result.end ≡ (extent_of (tree self.entry)).end }
        ensures kind { result.kind ≡ kind_of (tree self.entry) }
        ensures few { length self.entry.scan.now.nodes < 2 ^ 32 }
        ensures stands { HasTree self.entry.scan.now self.entry.node }
    {
        self.scan.node(self.node)
    }
}
