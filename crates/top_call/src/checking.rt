//! The form that checks what was written for a text.
ghost use Rattle.std.specs.Prelude.{◌≡◌, ◌≤◌, ◌^◌, IfOk, IfErr, length};
ghost use Rattle.topo_reader.specs.TopologyIs.{LiesIn};
ghost use Rattle.cert_format.specs.Content.{content_of};
ghost use Rattle.cert_format.specs.Certificate.{certificate_text, IsCertificate};
ghost use Rattle.cert_checker.specs.declared.verdicts.Verdict.{Verdict};
ghost use Rattle.top_call.specs.Reading.{texts_read, AreShort};
ghost use Rattle.top_call.specs.Maps.{IsLoaded, IsRefused, topology_in};
ghost use Rattle.top_call.specs.Answers.{IsChecked, IsComparison};
ghost use Rattle.top_call.specs.Endings.{IsMapStatus};

use crate::forms::Options;
use crate::loading::{Loaded, load, weights_of};
use crate::status::Status;
use crate::texts::Texts;
use crate::thinning::{put_back, version_of};
use cert_checker::{JudgeState, Reason, Verdict, compare, judge};
use cert_format::{CertError, Certificate, read};
use grid_exact::Bound;
use std::alloc::Global;

// The verdict on what was written, where the certificate was read.
fn judged(
    alloc: Global,
    options: &Options,
    bound: Bound,
    loaded: Loaded,
    certificate: &Certificate,
    texts: &Texts,
) -> Result<Verdict, Status>
    requires short { AreShort (texts_read texts.now) }
    requires loaded { IsLoaded options.now (texts_read texts.now).file (topology_in loaded)
        loaded.partly.held }
    requires span { LiesIn (texts_read texts.now).file loaded.arcs_at }
    requires text { certificate_text (content_of certificate.now) ≡ (texts_read texts.now).cert }
    requires certificate { IsCertificate (content_of certificate.now) }
    ensures told { IfOk result (IsChecked options.now bound (texts_read texts.now)) }
    ensures refused { IfErr result (λ s. s ≡ Status.NoMemory) }
{
    let Loaded { partly, arcs_at } = loaded;
    let mut state = JudgeState::new(alloc, partly)?;
    let version = version_of(options);
    let verdict = judge(&mut state, certificate, version, bound, weights_of(options));
    if let Verdict::No(_) = verdict {
        return Ok(verdict);
    }
    let expected = put_back(alloc, &texts.file, arcs_at, &state.finish())?;
    Ok(compared(&expected, &texts.out))
}

// The verdict on what was written, where the certificate holds: it is to be the expected text.
fn compared(expected: &[u8], out: &[u8]) -> Verdict
    requires expected { length expected.now ≤ 2 ^ 27 }
    requires out { length out.now ≤ 2 ^ 27 }
    ensures { IsComparison expected.now out.now result }
{
    match compare(expected, out) {
        None => Verdict::Yes,
        Some(at) => Verdict::No(Reason::Text(at)),
    }
}

/// The verdict on what was written for a topology within the bound, by its certificate. The errors
/// are the statuses with which the topology's text is refused, and want of memory.
pub fn verdict_on(
    alloc: Global,
    options: &Options,
    bound: Bound,
    texts: &Texts,
) -> Result<Verdict, Status>
    requires { AreShort (texts_read texts.now) }
    ensures told { IfOk result (IsChecked options.now bound (texts_read texts.now)) }
    ensures refused { IfErr result (IsRefused options.now (texts_read texts.now).file) }
    ensures status { IfErr result IsMapStatus }
{
    let loaded = load(alloc, options, &texts.file)?;
    match read(alloc, &texts.cert) {
        Ok(certificate) => judged(alloc, options, bound, loaded, &certificate, texts),
        Err(CertError::NotCertificate) => Ok(Verdict::No(Reason::Form)),
        Err(CertError::NoMemory) => Err(Status::NoMemory),
    }
}
