//! The values of the members of an Object, from left to right.

ghost use Rattle.json_scan.specs.Tree.{NoEntries, after_at};
ghost use Rattle.json_scan.specs.Left.{Left, entries, few_left, HasEntries};

use crate::object::Object;
use crate::value::{Value, value_at};
use crate::view::Scan;
use std::marker::Model;

/// The values of an Object's members that are still to come.
#[derive(Drop)]
pub struct MemberValues<'a> {
    scan: &'a Scan<'a>,
    at: u32,
    end: u32,
}

impl<'a> Model for MemberValues<'a> {
    ghost use Rattle.json_scan.specs.Left.{Left, HasEntries};

    ghost Value = { Left };

    ghost view = { λ l. record { scan = l.scan.now; at = l.at; end = l.end } };

    ghost invariant = { λ l. HasEntries l.scan.now l.at l.end };
}

impl<'a> MemberValues<'a> {
    ghost use Rattle.std.specs.Prelude.{◌≡◌};
    ghost use Rattle.json_scan.specs.Left.{Left, HasEntries};

    fn new(scan: &'a Scan<'a>, at: u32, end: u32) -> MemberValues<'a>
        requires { HasEntries scan.now at end }
        ensures { result ≡ record { scan = scan.now; at = at; end = end } }
    {
        MemberValues { scan, at, end }
    }
}

impl<'a> Object<'a> {
    ghost use Rattle.std.specs.Prelude.{◌≡◌};
    ghost use Rattle.json_scan.specs.Left.{entries};
    ghost use Rattle.json_scan.specs.Members.{members};

    /// The values of the members, in order; no name is looked at.
    pub fn values(self) -> MemberValues<'a>
        ensures { entries result ≡ members self.entry }
    {
        let value = self.value;
        let found = value.node();
        MemberValues::new(value.scan, value.node + 1, found.after)
    }
}

impl<'a> Iterator for MemberValues<'a> {
    ghost use Rattle.std.specs.Iterator.{at_most};
    ghost use Rattle.json_scan.specs.Steps.{MemberSteps};
    ghost use Rattle.json_scan.specs.Left.{few_left};

    type Item = Value<'a>;

    ghost next_gives = { MemberSteps };

    ghost remaining = { λ l. at_most (few_left l) };

    fn next(&mut self) -> Option<Value<'a>> {
        if self.at == self.end {
            return None;
        }
        let scan = self.scan;
        let at = self.at + 1;
        self.at = scan.node(at).after;
        Some(value_at(scan, at))
    }
}
