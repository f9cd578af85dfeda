//! Features.

ghost use Rattle.std.specs.Prelude.{◌≡◌, option_map};
ghost use Rattle.json_scan.specs.Shown.{tree};
ghost use Rattle.json_scan.specs.Members.{members, holder};
ghost use Rattle.geo_reader.specs.GeoJson.{feature_type, geometry_or_null};
ghost use Rattle.geo_reader.specs.GeoJson.{is_id, is_null_or_object, id_of, properties_of};
ghost use Rattle.geo_reader.specs.GeoJson.{feature_in, feature_of, features_in};
ghost use Rattle.geo_reader.specs.Gives.{Gives, seen};
ghost use Rattle.geo_reader.specs.SoFar.{geo_so_far};

use crate::collection::geometry;
use crate::fault::{GeoFault, GeoKind, wrong};
use crate::geometries::SoFar;
use crate::items::{items_of, object_of};
use crate::member::{optional, required};
use json_scan::{Kind, Object, Value};

/// Whether the value of `type` names a feature.
fn feature_type(value: Value<'_>) -> Result<bool, GeoFault>
    ensures { result ≡ feature_type (tree value.entry) }
{
    if value.text_is("Feature") {
        return Ok(true);
    }
    Err(wrong(GeoKind::UnknownType, value))
}

/// Reads the value of `geometry`.
fn geometry_or_null(value: Value<'_>, so_far: &mut SoFar) -> Result<(), GeoFault>
    ensures { Gives (λ _. geo_so_far so_far.new) result
        (geometry_or_null (tree value.entry) (geo_so_far so_far.old)) }
{
    if value.kind() == Kind::Null {
        return Ok(());
    }
    geometry(value, so_far)
}

/// Whether a value is a Text or a Number.
fn is_id(value: Value<'_>) -> bool
    ensures { result ≡ is_id (tree value.entry) }
{
    matches!(value.kind(), Kind::Text | Kind::Number)
}

/// Whether a value is Null or an Object.
fn is_null_or_object(value: Value<'_>) -> bool
    ensures { result ≡ is_null_or_object (tree value.entry) }
{
    matches!(value.kind(), Kind::Null | Kind::Object)
}

/// The value of `id`, if it stands.
fn id_of<'a>(object: Object<'a>) -> Result<Option<Value<'a>>, GeoFault>
    ensures { seen (option_map tree) result ≡ id_of (members object.entry) }
{
    match optional(object, "id")? {
        None => Ok(None),
        Some(value) => {
            if is_id(value) {
                return Ok(Some(value));
            }
            Err(wrong(GeoKind::WrongType, value))
        }
    }
}

/// The value of `properties`, if it stands.
fn properties_of<'a>(object: Object<'a>) -> Result<Option<Value<'a>>, GeoFault>
    ensures { seen (option_map tree) result ≡ properties_of (members object.entry) }
{
    match optional(object, "properties")? {
        None => Ok(None),
        Some(value) => {
            if is_null_or_object(value) {
                return Ok(Some(value));
            }
            Err(wrong(GeoKind::WrongType, value))
        }
    }
}

/// Reads the feature of an Object: its geometry whole, and then what types its `id` and its
/// `properties` have.
pub fn feature_object(object: Object<'_>, so_far: &mut SoFar) -> Result<(), GeoFault>
    ensures { Gives (λ _. geo_so_far so_far.new) result
        (feature_in (holder object.entry) (members object.entry) (geo_so_far so_far.old)) }
{
    feature_type(required(object, "type")?)?;
    let value = required(object, "geometry")?;
    geometry_or_null(value, so_far)?;
    id_of(object)?;
    properties_of(object)?;
    Ok(())
}

/// Reads a feature.
fn feature(value: Value<'_>, so_far: &mut SoFar) -> Result<(), GeoFault>
    ensures { Gives (λ _. geo_so_far so_far.new) result
        (feature_of (tree value.entry) (geo_so_far so_far.old)) }
{
    feature_object(object_of(value)?, so_far)
}

/// Reads the features of a collection.
pub fn features(object: Object<'_>, so_far: &mut SoFar) -> Result<(), GeoFault>
    ensures { Gives (λ _. geo_so_far so_far.new) result
        (features_in (holder object.entry) (members object.entry) (geo_so_far so_far.old)) }
{
    let list = required(object, "features")?;
    for value in items_of(list)? {
        feature(value, so_far)?;
    }
    Ok(())
}
