//! Members that stand once, and the bytes of values.

ghost use Rattle.std.specs.Prelude.{◌≡◌, IsTrue, option_map};
ghost use Rattle.std.specs.Char.{is_ascii};
ghost use Rattle.std.specs.List.{list_all};
ghost use Rattle.json_scan.specs.Shown.{tree};
ghost use Rattle.json_scan.specs.Members.{members};
ghost use Rattle.geo_text.specs.Shapes.{bytes_in, value_in};

use json_scan::{Member, Object, Value};

/// The value of a member that stands once.
pub fn once<'a>(object: Object<'a>, name: &str) -> Option<Value<'a>>
    requires { IsTrue (list_all is_ascii name.now) }
    ensures { option_map tree result ≡ value_in name.now (members object.entry) }
{
    match object.member(name) {
        Member::Absent => None,
        Member::Once(value) => Some(value),
        Member::Twice { .. } => None,
    }
}

/// The bytes of a value of the text.
pub fn bytes_of<'a>(text: &'a [u8], value: Value<'_>) -> &'a [u8]
    ensures { result.now ≡ bytes_in text.now (tree value.entry) }
{
    let end = (value.end() as usize).min(text.len());
    let start = (value.start() as usize).min(end);
    &text[start..end]
}
