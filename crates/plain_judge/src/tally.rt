//! How many certificates got which verdict.

use cert_checker::{Reason, Verdict};
use std::fmt;

/// Counts of verdicts.
#[derive(Clone, Copy)]
pub struct Tally {
    yes: u32,
    mismatches: u32,
    kept: u32,
    steps: u32,
    ends: u32,
    layers: u32,
    differing: u32,
}

impl Tally {
    /// No verdict yet.
    pub fn none() -> Tally {
        Tally {
            yes: 0,
            mismatches: 0,
            kept: 0,
            steps: 0,
            ends: 0,
            layers: 0,
            differing: 0,
        }
    }

    /// Counts a verdict, on which the two judges agree or not.
    pub fn count(&mut self, verdict: Verdict, agree: bool) {
        let place = match verdict {
            Verdict::Yes => &mut self.yes,
            Verdict::No(Reason::Kept(_)) => &mut self.kept,
            Verdict::No(Reason::Path(_, _, _)) => &mut self.steps,
            Verdict::No(Reason::Ends(_)) => &mut self.ends,
            Verdict::No(Reason::Layers(_, _, _)) => &mut self.layers,
            Verdict::No(_) => &mut self.mismatches,
        };
        *place = place.saturating_add(1);
        if !agree {
            self.differing = self.differing.saturating_add(1);
        }
    }

    /// Whether the two judges agree on all.
    pub fn is_whole(&self) -> bool {
        self.differing == 0
    }
}

impl fmt::Display for Tally {
    fn fmt<W: fmt::Write>(&self, f: &mut fmt::Formatter<W>) -> fmt::Result {
        let Tally {
            yes,
            mismatches,
            kept,
            steps,
            ends,
            layers,
            differing,
        } = *self;
        writeln!(f, "yes: {yes}")?;
        writeln!(f, "no, version to chains: {mismatches}")?;
        writeln!(f, "no, kept: {kept}")?;
        writeln!(f, "no, a step: {steps}")?;
        writeln!(f, "no, ends: {ends}")?;
        writeln!(f, "no, layers: {layers}")?;
        write!(f, "the two judges differ on: {differing}")
    }
}
