//! The values of a List, from left to right.

ghost use Rattle.json_scan.specs.Tree.{NoTrees, after_at};
ghost use Rattle.json_scan.specs.Left.{Left, trees, few_left, HasItems};

use crate::node::Kind;
use crate::value::{Value, value_at};
use crate::view::Scan;
use std::marker::Model;

/// The values of a List that are still to come.
#[derive(Drop)]
pub struct Values<'a> {
    scan: &'a Scan<'a>,
    at: u32,
    end: u32,
}

impl<'a> Model for Values<'a> {
    ghost use Rattle.json_scan.specs.Left.{Left, HasItems};

    ghost Value = { Left };

    ghost view = { λ l. record { scan = l.scan.now; at = l.at; end = l.end } };

    ghost invariant = { λ l. HasItems l.scan.now l.at l.end };
}

impl<'a> Value<'a> {
    ghost use Rattle.std.specs.Prelude.{◌≡◌, option_map};
    ghost use Rattle.json_scan.specs.Shown.{tree};
    ghost use Rattle.json_scan.specs.Left.{trees};
    ghost use Rattle.json_scan.specs.Parts.{items_in};

    /// The values of a List; `None` where this is none.
    pub fn as_list(self) -> Option<Values<'a>>
        ensures { option_map trees result ≡ items_in (tree self.entry) }
    {
        let found = self.node();
        if found.kind != Kind::List {
            return None;
        }
        Some(Values::new(self.scan, self.node + 1, found.after))
    }
}

impl<'a> Values<'a> {
    ghost use Rattle.std.specs.Prelude.{◌≡◌};
    ghost use Rattle.json_scan.specs.Left.{Left, trees, HasItems};
    ghost use Rattle.json_scan.specs.Parts.{are_few};

    fn new(scan: &'a Scan<'a>, at: u32, end: u32) -> Values<'a>
        requires { HasItems scan.now at end }
        ensures { result ≡ record { scan = scan.now; at = at; end = end } }
    {
        Values { scan, at, end }
    }

    /// Whether there are fewer than two.
    pub fn are_few(&self) -> bool
        ensures { result ≡ are_few (trees self.now) }
    {
        if self.at == self.end {
            return true;
        }
        let scan = self.scan;
        scan.node(self.at).after == self.end
    }
}

impl<'a> Iterator for Values<'a> {
    ghost use Rattle.std.specs.Iterator.{at_most};
    ghost use Rattle.json_scan.specs.Steps.{Steps};
    ghost use Rattle.json_scan.specs.Left.{few_left};

    type Item = Value<'a>;

    ghost next_gives = { Steps };

    ghost remaining = { λ l. at_most (few_left l) };

    fn next(&mut self) -> Option<Value<'a>> {
        if self.at == self.end {
            return None;
        }
        let scan = self.scan;
        let at = self.at;
        self.at = scan.node(at).after;
        Some(value_at(scan, at))
    }
}
