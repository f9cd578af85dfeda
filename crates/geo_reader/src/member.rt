//! Members that are read.

ghost use Rattle.std.specs.Prelude.{◌≡◌, IsTrue, option_map};
ghost use Rattle.std.specs.Char.{is_ascii};
ghost use Rattle.std.specs.List.{list_all};
ghost use Rattle.json_scan.specs.Tree.{lookup};
ghost use Rattle.json_scan.specs.Shown.{tree};
ghost use Rattle.json_scan.specs.Members.{members, holder};
ghost use Rattle.geo_reader.specs.Steps.{optional, required};
ghost use Rattle.geo_reader.specs.Gives.{seen};

use crate::fault::{GeoFault, GeoKind};
use json_scan::{Member, Object, Value};

/// The value of a member that may stand once.
pub fn optional<'a>(object: Object<'a>, name: &str) -> Result<Option<Value<'a>>, GeoFault>
    requires { IsTrue (list_all is_ascii name.now) }
    ensures { seen (option_map tree) result ≡ optional (lookup name.now (members object.entry)) }
{
    match object.member(name) {
        Member::Absent => Ok(None),
        Member::Once(value) => Ok(Some(value)),
        Member::Twice { start, .. } => Err(GeoFault::Shape {
            kind: GeoKind::Twice,
            at: start,
        }),
    }
}

/// The value of a member that must stand once.
pub fn required<'a>(object: Object<'a>, name: &str) -> Result<Value<'a>, GeoFault>
    requires { IsTrue (list_all is_ascii name.now) }
    ensures { seen tree result ≡ required name.now (holder object.entry) (members object.entry) }
{
    match optional(object, name)? {
        Some(value) => Ok(value),
        None => Err(GeoFault::Shape {
            kind: GeoKind::Missing,
            at: object.start(),
        }),
    }
}
