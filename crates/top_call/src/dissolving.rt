//! The form that writes the border of chosen polygons of a map.
ghost use Rattle.std.specs.Prelude.{◌≡◌, ◌≤◌, ◌<◌, ◌^◌, ◌⊎◌, [], All, IfOk, IfErr, get_or, length};
ghost use Rattle.topo_reader.specs.Ends.{HasEvenEnds};
ghost use Rattle.top_call.specs.Words.{polygons_in};
ghost use Rattle.top_call.specs.Answers.{IsBorderRefusal, IsBorderText, IsDissolved, first_missing};
ghost use Rattle.top_call.specs.Endings.{IsMapStatus};

use crate::demo::no_options;
use crate::lists::polygons_in;
use crate::loading::load;
use crate::status::Status;
use arc_map::{ArcMap, NoMemory};
use dissolve::border;
use std::alloc::Global;

// The first of these numbers that is not below the count. `None` where all are.
fn first_missing(count: u32, polygons: &[u32]) -> Option<u32>
    ensures { result ≡ first_missing count polygons.now }
{
    for polygon in polygons {
        if *polygon >= count {
            return Some(*polygon);
        }
    }
    None
}

// The text of the border of the polygons.
fn border_text(alloc: Global, map: &ArcMap, polygons: &[u32]) -> Result<Vec<u8>, NoMemory>
    requires known { first_missing (length map.now.polygons) polygons.now ≡ None }
    requires even { All (HasEvenEnds map.now.arcs) map.now.polygons }
    ensures { IfOk result (λ bytes. IsBorderText map.now polygons.now bytes.items) }
{
    let rings = border(alloc, map, polygons)?;
    rings.text(alloc)
}

/// The text of the border of the polygons that a word lists, of the map of a text. The errors are
/// the statuses with which the text is refused, `NoPolygon` with the first number that no polygon
/// of the map has, and want of memory.
pub fn dissolved(alloc: Global, list: &str, text: &[u8]) -> Result<Vec<u8>, Status>
    requires { length text.now ≤ 2 ^ 26 }
    ensures written { IfOk result (λ bytes.
        IsDissolved (polygons_in list.now) text.now bytes.items) }
    ensures refused { IfErr result (λ s. (s ≡ Status.NoMemory)
        ⊎ IsBorderRefusal (polygons_in list.now) text.now s) }
    ensures status { IfErr result IsMapStatus }
{
    let loaded = load(alloc, &no_options(), text)?;
    let polygons = polygons_in(alloc, list)?;
    let map = loaded.partly.map();
    if let Some(polygon) = first_missing(map.polygon_count(), &polygons) {
        return Err(Status::NoPolygon(polygon));
    }
    Ok(border_text(alloc, map, &polygons)?)
}
