//! The transform of a topology.

ghost use Rattle.std.specs.Prelude.{◌≡◌, IsTrue, codes};
ghost use Rattle.std.specs.Char.{is_ascii};
ghost use Rattle.std.specs.List.{list_all};
ghost use Rattle.json_scan.specs.Tree.{lookup};
ghost use Rattle.json_scan.specs.Shown.{tree};
ghost use Rattle.json_scan.specs.Left.{trees};
ghost use Rattle.json_scan.specs.Members.{members};
ghost use Rattle.topo_reader.specs.Reads.{is_number, are_two_numbers, is_pair, is_one_pair};
ghost use Rattle.topo_reader.specs.Reads.{has_both_pairs, transform_of, coded_by};

use crate::fault::{ReadFault, ShapeKind, wrong};
use crate::member::optional;
use json_scan::{Kind, Member, Object, Value, Values};

fn is_number(value: Value<'_>) -> bool
    ensures { result ≡ is_number (tree value.entry) }
{
    value.kind() == Kind::Number
}

/// Whether values are two numbers.
fn are_two_numbers(mut items: Values<'_>) -> bool
    ensures { result ≡ are_two_numbers (trees items.entry) }
{
    let Some(first) = items.next() else {
        return false;
    };
    let Some(second) = items.next() else {
        return false;
    };
    if items.next().is_some() {
        return false;
    }
    is_number(first) && is_number(second)
}

/// Whether a value is a List of two numbers.
fn is_pair(value: Value<'_>) -> bool
    ensures { result ≡ is_pair (tree value.entry) }
{
    match value.as_list() {
        Some(items) => are_two_numbers(items),
        None => false,
    }
}

/// Whether a member stands once and is two numbers.
fn is_one_pair(object: Object<'_>, name: &str) -> bool
    requires { IsTrue (list_all is_ascii name.now) }
    ensures { result ≡ is_one_pair (lookup name.now (members object.entry)) }
{
    match object.member(name) {
        Member::Once(value) => is_pair(value),
        Member::Absent => false,
        Member::Twice { .. } => false,
    }
}

/// Whether both parts of a transform stand as they must.
fn has_both_pairs(object: Object<'_>) -> bool
    ensures { result ≡ has_both_pairs (members object.entry) }
{
    is_one_pair(object, "scale") && is_one_pair(object, "translate")
}

/// Whether a map is coded, by the value of `transform`.
fn transform(value: Value<'_>) -> Result<bool, ReadFault>
    ensures { result ≡ transform_of (tree value.entry) }
{
    if value.kind() == Kind::Null {
        return Ok(false);
    }
    let Some(object) = value.as_object() else {
        return Err(wrong(ShapeKind::BadTransform, value));
    };
    if has_both_pairs(object) {
        return Ok(true);
    }
    Err(wrong(ShapeKind::BadTransform, value))
}

/// Whether the map of a topology is coded.
pub fn is_coded(object: Object<'_>) -> Result<bool, ReadFault>
    ensures { result ≡ coded_by (lookup (codes "transform") (members object.entry)) }
{
    match optional(object, "transform")? {
        Some(value) => transform(value),
        None => Ok(false),
    }
}
