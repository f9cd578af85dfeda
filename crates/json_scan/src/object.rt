//! The members of an Object.

ghost use Rattle.std.specs.Prelude.{◌≡◌};
ghost use Rattle.json_scan.specs.Tree.{node_at};
ghost use Rattle.json_scan.specs.declared.node.Kind.TheVariants as kind;

use crate::node::Kind;
use crate::value::{Value, value_at};

/// An Object, whose members can be looked for.
#[derive(Clone, Copy)]
pub struct Object<'a> {
    pub(crate) value: Value<'a>,
    ghost object: { (node_at value.scan.now value.node).kind ≡ kind.Object },
}

/// How often a name stands in an Object.
#[derive(Clone, Copy)]
pub enum Member<'a> {
    Absent,
    /// Once: its value.
    Once(Value<'a>),
    /// Twice or more: where the second name stands.
    Twice { start: u32, end: u32 },
}

impl<'a> Value<'a> {
    ghost use Rattle.std.specs.Prelude.{◌≡◌, option_map};
    ghost use Rattle.json_scan.specs.Shown.{tree};
    ghost use Rattle.json_scan.specs.Members.{with_members};
    ghost use Rattle.json_scan.specs.Parts.{members_in};

    /// The Object that this is; `None` where it is none.
    pub fn as_object(self) -> Option<Object<'a>>
        ensures { option_map with_members result ≡ members_in (tree self.entry) }
    {
        if self.node().kind != Kind::Object {
            return None;
        }
        Some(Object { value: self })
    }
}

impl<'a> Object<'a> {
    ghost use Rattle.std.specs.Prelude.{◌≡◌, IsTrue};
    ghost use Rattle.std.specs.Char.{is_ascii};
    ghost use Rattle.std.specs.List.{list_all};
    ghost use Rattle.json_scan.specs.Tree.{lookup};
    ghost use Rattle.json_scan.specs.Tree.{place_of};
    ghost use Rattle.json_scan.specs.Members.{members, holder, found};

    /// The place of the first byte.
    pub fn start(self) -> u32
        ensures { result ≡ place_of (holder self.entry) }
    {
        self.value.start()
    }

    /// Where a name stands. Names are compared after escapes are replaced; this one is ASCII.
    pub fn member(self, name: &str) -> Member<'a>
        requires { IsTrue (list_all is_ascii name.now) }
        ensures { found result ≡ lookup name.now (members self.entry) }
    {
        let value = self.value;
        let scan = value.scan;
        let found = value.node();
        let first = scan.first_named(value.node + 1, found.after, name);
        if first == found.after {
            return Member::Absent;
        }
        let node = first + 1;
        let behind = scan.node(node).after;
        let second = scan.first_named(behind, found.after, name);
        if second == found.after {
            return Member::Once(value_at(scan, node));
        }
        let again = scan.node(second);
        Member::Twice {
            start: again.start,
            end: again.end,
        }
    }
}
