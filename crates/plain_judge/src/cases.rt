//! A certificate for a map, what is demanded of it, and its two verdicts.
ghost use Rattle.std.specs.Prelude.{All, IsTrue};
ghost use Rattle.grid_exact.specs.Weights.{StaysOnGrid};

use crate::error::CasesError;
use crate::judge::verdict;
use arc_map::ArcMap;
use arrangement_check::hold;
use cert_checker::{JudgeState, Verdict, judge};
use cert_format::{CertError, Certificate};
use grid_exact::{Bound, Weights};
use json_scan::scan;
use std::alloc::{AllocError, Global};

// How many bytes a map's text has at most.
const MOST_BYTES: usize = 67108864;

/// What is demanded of a certificate.
#[derive(Clone, Copy)]
pub struct Demand {
    /// 1, 2 or 3
    pub version: u32,
    /// in grid units
    pub bound: Bound,
    /// 1 and 1 in the versions 1 and 2
    pub weights: Weights,
}

/// The demand that a line spells: the version, the bound and the two weights, each after a space.
pub fn read_demand(line: &str) -> Result<Demand, CasesError> {
    let mut words = line.split(' ');
    let version = match u32::try_from(number(words.next())?) {
        Ok(version) => version,
        Err(_) => return Err(CasesError::Line),
    };
    let bound = Bound::new(number(words.next())?);
    let (wx, wy) = (number(words.next())?, number(words.next())?);
    match (bound, Weights::new(wx, wy)) {
        (Some(bound), Some(weights)) => Ok(Demand {
            version,
            bound,
            weights,
        }),
        _ => Err(CasesError::Line),
    }
}

// The number that a word spells in decimal.
fn number(word: Option<&str>) -> Result<u64, CasesError> {
    match word {
        Some(word) => match word.parse::<u64>() {
            Ok(value) => Ok(value),
            Err(_) => Err(CasesError::Line),
        },
        None => Err(CasesError::Line),
    }
}

/// The verdicts on the certificate of this text for the map of this text: by the index, and by
/// plain tests.
pub fn verdicts(
    alloc: Global,
    map: &str,
    demand: &Demand,
    certificate: &str,
) -> Result<(Verdict, Verdict), CasesError> {
    let cert = match cert_format::read(alloc, certificate.as_bytes()) {
        Ok(cert) => cert,
        Err(CertError::NotCertificate) => return Err(CasesError::Line),
        Err(CertError::NoMemory) => return Err(CasesError::Memory(AllocError)),
    };
    let by_index = by_index(alloc, map_of(alloc, map)?, &cert, demand)?;
    let plainly = verdict(alloc, map_of(alloc, map)?, &cert, demand)?;
    Ok((by_index, plainly))
}

// The map of the text, which is of at most 64 MiB.
fn map_of(alloc: Global, text: &str) -> Result<ArcMap, CasesError> {
    if text.len() > MOST_BYTES {
        return Err(CasesError::Line);
    }
    let scanned = scan(alloc, text.as_bytes())?;
    Ok(topo_reader::read(alloc, &scanned)?.map)
}

// The verdict of the checker.
fn by_index(
    alloc: Global,
    map: ArcMap,
    cert: &Certificate,
    demand: &Demand,
) -> Result<Verdict, CasesError> {
    if !stays(&map, demand.weights) {
        return Err(CasesError::OffWeights);
    }
    let mut state = JudgeState::new(alloc, hold(alloc, map)?)?;
    Ok(judge(
        &mut state,
        cert,
        demand.version,
        demand.bound,
        demand.weights,
    ))
}

// Whether the positions of all arcs stay on the grid with these weights.
fn stays(map: &ArcMap, weights: Weights) -> bool
    ensures { IsTrue result → All (All (StaysOnGrid weights)) map.now.arcs }
{
    for k in 0..map.arc_count() {
        if weights.first_off(map.arc(k)).is_some() {
            return false;
        }
    }
    true
}
