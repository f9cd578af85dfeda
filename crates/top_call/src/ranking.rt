//! The form that writes the ranks of the positions of a map by several levels of it.
ghost use Rattle.std.specs.Prelude.{◌≡◌, ◌≤◌, ◌^◌, pos, IfOk, IfErr, length, map};
ghost use Rattle.arc_map.specs.Arranged.{IsArranged};
ghost use Rattle.top_call.specs.Words.{bounds_in};
ghost use Rattle.top_call.specs.Requests.{AreBounds};
ghost use Rattle.top_call.specs.Maps.{IsRefused};
ghost use Rattle.top_call.specs.Answers.{IsRanked, IsRanksText, plain};
ghost use Rattle.top_call.specs.Endings.{IsMapStatus};

use crate::demo::no_options;
use crate::lists::bounds_in;
use crate::loading::{Loaded, load};
use crate::status::Status;
use arc_map::{ArcMap, NoMemory};
use arrangement_check::Arranged;
use grid_exact::Bound;
use pyramid::rank_all;
use std::alloc::Global;

// The text of the ranks of an arranged map by the levels of the bounds.
fn ranks_text(alloc: Global, map: ArcMap, bounds: &[Bound]) -> Result<Vec<u8>, NoMemory>
    requires arranged { IsArranged map }
    requires few { length bounds.now ≤ 16 }
    ensures { IfOk result (λ bytes. IsRanksText map bounds.now bytes.items) }
{
    let ranks = rank_all(alloc, Arranged::adopt(map), bounds)?;
    ranks.text(alloc, bounds)
}

/// The text of the ranks of the positions of a text's map by the levels of the bounds that a word
/// lists. The errors are the statuses with which the text is refused, and want of memory.
pub fn ranked(alloc: Global, list: &str, text: &[u8]) -> Result<Vec<u8>, Status>
    requires bounds { AreBounds (bounds_in list.now) }
    requires text { length text.now ≤ 2 ^ 26 }
    ensures written { IfOk result (λ bytes. IsRanked (bounds_in list.now) text.now bytes.items) }
    ensures refused { IfErr result (IsRefused plain text.now) }
    ensures status { IfErr result IsMapStatus }
{
    let Loaded { partly, .. } = load(alloc, &no_options(), text)?;
    let bounds = bounds_in(alloc, list)?;
    Ok(ranks_text(alloc, partly.into_map(), &bounds)?)
}
