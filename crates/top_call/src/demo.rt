//! The forms that make a coverage.
ghost use Rattle.std.specs.Prelude.{◌≡◌, ◌≤◌, ◌^◌, IfOk, IfErr, length};
ghost use Rattle.map_gen.specs.Make.{made};
ghost use Rattle.top_call.specs.Parts.{spelled};
ghost use Rattle.top_call.specs.Requests.{IsMakeable};
ghost use Rattle.top_call.specs.Answers.{IsDemoed, plain, position_count, demo_text};

use crate::forms::Options;
use crate::loading::{load, weights_of};
use crate::parts::{Part, text_of};
use crate::status::Status;
use arc_map::ArcMap;
use chain_replace::run_chains;
use grid_exact::Bound;
use map_gen::make;
use std::alloc::{AllocError, Global};

/// The text of a coverage of so many rows and columns of cells. The only error is want of memory.
pub fn coverage(alloc: Global, rows: u32, cols: u32, seed: u32) -> Result<Vec<u8>, Status>
    requires { IsMakeable rows cols seed }
    ensures made { IfOk result (λ text. text.items ≡ made rows cols seed) }
    ensures short { IfOk result (λ text. length text.items ≤ 2 ^ 26) }
    ensures status { IfErr result (λ s. s ≡ Status.NoMemory) }
{
    Ok(make(alloc, rows, cols, seed)?)
}

// How many positions the arcs of a map have in sum.
fn position_count(map: &ArcMap) -> u32
    ensures { result ≡ position_count map.now }
{
    let mut count = 0;
    for arc in 0..map.arc_count() {
        count += map.arc(arc).len() as u32;
    }
    count
}

// The lines that tell of a map, of the number of its chains, and of what came of it.
fn lines_of(alloc: Global, map: &ArcMap, chains: u32, before: u32) -> Result<Vec<u8>, AllocError>
    ensures { IfOk result (λ text. text.items ≡ demo_text map.now chains before) }
{
    let parts = [
        Part::Words("arcs "),
        Part::Number(map.arc_count()),
        Part::Words("\npoints "),
        Part::Number(map.point_count()),
        Part::Words("\npolygons "),
        Part::Number(map.polygon_count()),
        Part::Words("\nchains "),
        Part::Number(chains),
        Part::Words("\npositions "),
        Part::Number(before),
        Part::Words(" to "),
        Part::Number(position_count(map)),
        Part::Words("\n"),
    ];
    text_of(alloc, &parts)
}

// The options of the forms that have none.
pub fn no_options() -> Options
    ensures { result ≡ plain }
{
    Options {
        hold: false,
        weights: None,
    }
}

/// What comes of thinning such a coverage within the bound, in five lines of numbers. The only
/// error is want of memory: a coverage is an arranged topology.
pub fn demo(alloc: Global, rows: u32, cols: u32, seed: u32, bound: Bound) -> Result<Vec<u8>, Status>
    requires { IsMakeable rows cols seed }
    ensures written { IfOk result (λ bytes. IsDemoed rows cols seed bound bytes.items) }
    ensures status { IfErr result (λ s. s ≡ Status.NoMemory) }
{
    let text = coverage(alloc, rows, cols, seed)?;
    let options = no_options();
    let loaded = load(alloc, &options, &text)?;
    let before = position_count(loaded.partly.map());
    let outcome = run_chains(alloc, loaded.partly, bound, weights_of(&options))?;
    let map = outcome.map.map();
    Ok(lines_of(alloc, map, outcome.records.count(), before)?)
}
