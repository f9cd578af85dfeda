//! Values that must be a List, or an Object.

ghost use Rattle.std.specs.Prelude.{◌≡◌};
ghost use Rattle.json_scan.specs.Shown.{tree};
ghost use Rattle.json_scan.specs.Left.{trees};
ghost use Rattle.json_scan.specs.Members.{with_members};
ghost use Rattle.geo_reader.specs.Steps.{list_of, object_of};
ghost use Rattle.geo_reader.specs.Gives.{seen};

use crate::fault::{GeoFault, GeoKind, wrong};
use json_scan::{Object, Value, Values};

/// The values of a List.
pub fn items_of<'a>(value: Value<'a>) -> Result<Values<'a>, GeoFault>
    ensures { seen trees result ≡ list_of (tree value.entry) }
{
    match value.as_list() {
        Some(items) => Ok(items),
        None => Err(wrong(GeoKind::WrongType, value)),
    }
}

/// The Object that a value is.
pub fn object_of<'a>(value: Value<'a>) -> Result<Object<'a>, GeoFault>
    ensures { seen with_members result ≡ object_of (tree value.entry) }
{
    match value.as_object() {
        Some(object) => Ok(object),
        None => Err(wrong(GeoKind::WrongType, value)),
    }
}
