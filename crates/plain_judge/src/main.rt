//! Judges the certificates of `cases.txt` twice: by `cert_checker::judge`, which asks an index for
//! what stands near, and by the definition's plain tests over the whole map. Prints how many got
//! which verdict, and each on which the two differ.
#![tactic(auto)]

mod cases;
mod entry;
mod error;
mod judge;
mod tally;

use cases::{read_demand, verdicts};
use error::CasesError;
use std::fs;
use std::process::ExitCode;
use std::rt::Files;
use tally::Tally;

// The file of the cases. A line is a keyword, a space, and a text: `map` a topology, `demand` what
// is demanded of the certificates that follow (the version, the bound and the two weights),
// `certificate` a certificate for the map above.
const CASES: &str = "cases.txt";

// Reads the lines one by one, and judges each certificate twice.
fn tallied<R: Print + AllocGlobal>(rt: &R, text: &str) -> Result<Tally, CasesError> {
    let mut map = "";
    let mut demand = None;
    let mut tally = Tally::none();
    for line in text.lines() {
        match line.split_once(' ') {
            Some(("map", rest)) => map = rest,
            Some(("demand", rest)) => demand = Some(read_demand(rest)?),
            Some(("certificate", rest)) => {
                let demand = demand.ok_or(CasesError::Line)?;
                let (by_index, plainly) = verdicts(rt.alloc(), map, &demand, rest)?;
                if by_index != plainly {
                    println!(rt;
                        "DIFFERS: {rest}: {by_index:?} by the index, {plainly:?} plainly"
                    )?;
                }
                tally.count(by_index, by_index == plainly);
            }
            _ => return Err(CasesError::Line),
        }
    }
    Ok(tally)
}

// Judges all cases, and prints the counts. Whether the two judges agree on each.
fn run_all<R: Print + Files + AllocGlobal>(rt: &R) -> Result<bool, CasesError> {
    let text = fs::read_to_string(rt, CASES)?;
    let tally = tallied(rt, text.as_str())?;
    println!(rt; "{tally}")?;
    Ok(tally.is_whole())
}

fn main(rt: HostRuntime) -> ExitCode {
    match run_all(&rt) {
        Ok(true) => ExitCode::SUCCESS,
        Ok(false) => ExitCode::FAILURE,
        Err(error) => {
            let _ = eprintln!(rt; "{error}");
            ExitCode::FAILURE
        }
    }
}
