//! The forms that thin a map: its text with the arcs that are left, and the certificate.
ghost use Rattle.std.specs.Prelude.{◌≡◌, ◌≤◌, ◌^◌, IfOk, IfErr, length, vec_len};
ghost use Rattle.topo_reader.specs.TopologyIs.{LiesIn};
ghost use Rattle.topo_writer.specs.Splice.{spliced};
ghost use Rattle.topo_writer.specs.ArcsText.{arcs_text_of};
ghost use Rattle.top_call.specs.Maps.{IsRefused};
ghost use Rattle.top_call.specs.Answers.{IsSimplified, IsCertified, version_of};
ghost use Rattle.top_call.specs.Endings.{IsMapStatus};

use crate::forms::Options;
use crate::loading::{Loaded, load, weights_of};
use crate::status::Status;
use arc_map::{ArcMap, NoMemory};
use cert_format::write;
use chain_replace::{Outcome, run_chains};
use grid_exact::Bound;
use std::alloc::Global;
use topo_reader::Span;
use topo_writer::{arcs_text, splice};

/// The text with the arcs of a map in place of the value of its `arcs`. The only error is want of
/// memory.
pub fn put_back(
    alloc: Global,
    text: &[u8],
    arcs_at: Span,
    map: &ArcMap,
) -> Result<Vec<u8>, NoMemory>
    requires small { length text.now ≤ 2 ^ 26 }
    requires span { LiesIn text.now arcs_at }
    ensures value { IfOk result (λ bytes. bytes.items ≡ spliced text.now arcs_at.start arcs_at.end
        (arcs_text_of map.now)) }
    ensures short { IfOk result (λ bytes. length bytes.items ≤ 2 ^ 27) }
{
    let arcs = arcs_text(alloc, map)?;
    splice(alloc, text, arcs_at, &arcs)
}

/// The version of the certificate that the options demand: 3 with weights, else 2 with held arcs,
/// else 1.
pub fn version_of(options: &Options) -> u32
    ensures { result ≡ version_of options.now }
{
    match options.weights {
        Some(_) => 3,
        None => { if options.hold { 2 } else { 1 } }
    }
}

/// The text of a topology with its arcs thinned within the bound. The errors are the statuses with
/// which the text is refused, and want of memory.
pub fn simplified(
    alloc: Global,
    options: &Options,
    bound: Bound,
    text: &[u8],
) -> Result<Vec<u8>, Status>
    requires { length text.now ≤ 2 ^ 26 }
    ensures written { IfOk result (λ bytes. IsSimplified options.now bound text.now bytes.items) }
    ensures refused { IfErr result (IsRefused options.now text.now) }
    ensures status { IfErr result IsMapStatus }
{
    let Loaded { partly, arcs_at } = load(alloc, options, text)?;
    let outcome = run_chains(alloc, partly, bound, weights_of(options))?;
    Ok(put_back(alloc, text, arcs_at, outcome.map.map())?)
}

/// The certificate of thinning the arcs of a topology within the bound. The errors are those of
/// `simplified`.
pub fn certified(
    alloc: Global,
    options: &Options,
    bound: Bound,
    text: &[u8],
) -> Result<Vec<u8>, Status>
    requires { length text.now ≤ 2 ^ 26 }
    ensures written { IfOk result (λ bytes. IsCertified options.now bound text.now bytes.items) }
    ensures refused { IfErr result (IsRefused options.now text.now) }
    ensures status { IfErr result IsMapStatus }
{
    let Loaded { partly, .. } = load(alloc, options, text)?;
    let weights = weights_of(options);
    let outcome = run_chains(alloc, partly, bound, weights)?;
    let version = version_of(options);
    let Outcome { map, records } = outcome;
    Ok(write(alloc, version, bound, weights, map.held(), &records)?)
}
