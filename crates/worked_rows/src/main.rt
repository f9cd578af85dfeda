//! Runs the command's top call over memory on the worked rows of `rows.json`, and on what is made
//! from them: each line says of a row, or of many runs of one kind, whether what comes of them is
//! what is expected.
#![tactic(auto)]

mod call;
mod faults;
mod hard;
mod timed;

use call::run_call;
use faults::{every_failing_read, every_failing_write, every_prefix};
use hard::{Shape, is_hard_thinned};
use row_reader::{Difference, Row, RowsError, find, list_of, member, read, text_in};
use serde_json::Value;
use std::fs;
use std::process::ExitCode;
use std::rt::Files;
use timed::{checks_yes, has_same_faces, is_thinned_among_points, is_thinned_in_time};

// The file of the rows.
const ROWS: &str = "rows.json";

// The row from which torn texts and failing calls are made.
const PROVINCES: &str = "two provinces";

// Runs a row and prints its line. Whether the row agrees.
fn run_row<R: Print + Files + AllocGlobal>(rt: &R, value: &Value) -> Result<bool, RowsError> {
    let Row {
        name,
        call,
        expected,
    } = read(rt, value)?;
    match run_call(rt.alloc(), call).difference(&expected) {
        None => {
            println!(rt; "ok: {name}")?;
            Ok(true)
        }
        Some(Difference::Status(code)) => {
            println!(rt; "DIFFERS: {name}: status {code}")?;
            Ok(false)
        }
        Some(Difference::Out(at)) => {
            println!(rt; "DIFFERS: {name}: out at {at}")?;
            Ok(false)
        }
        Some(Difference::Note(at)) => {
            println!(rt; "DIFFERS: {name}: note at {at}")?;
            Ok(false)
        }
    }
}

// Runs all rows and prints their lines, and how many agree. Whether all do.
fn run_rows<R: Print + Files + AllocGlobal>(rt: &R, rows: &[Value]) -> Result<bool, RowsError> {
    let mut agreeing: usize = 0;
    for value in rows.iter() {
        if run_row(rt, value)? {
            agreeing = agreeing.saturating_add(1);
        }
    }
    let count = rows.len();
    println!(rt; "{agreeing} of {count} rows")?;
    Ok(agreeing == count)
}

// Prints the line of many runs of one kind, of which so many were as expected, or of which one was
// not.
fn print_count<R: Print>(
    rt: &R,
    name: &str,
    count: Option<usize>,
    unit: &str,
) -> Result<bool, RowsError> {
    match count {
        Some(count) => {
            println!(rt; "ok: {name} ({count} {unit})")?;
            Ok(true)
        }
        None => {
            println!(rt; "DIFFERS: {name}")?;
            Ok(false)
        }
    }
}

// Prints the line of what is as expected, or not.
fn print_line<R: Print>(rt: &R, name: &str, agrees: bool) -> Result<bool, RowsError> {
    if agrees {
        println!(rt; "ok: {name}")?;
    } else {
        println!(rt; "DIFFERS: {name}")?;
    }
    Ok(agrees)
}

// Runs what is made from the row of two provinces, and prints the lines. Whether all agree.
fn run_provinces<R: Print + AllocGlobal>(rt: &R, provinces: &Value) -> Result<bool, RowsError> {
    let alloc = rt.alloc();
    let text = text_in(member(provinces, "texts")?, "map.json")?;
    let out = text_in(provinces, "out")?;
    let torn = print_count(rt, "torn provinces", every_prefix(alloc, text)?, "prefixes")?;
    let reads = every_failing_read(alloc, text, out)?;
    let reads = print_count(rt, "every failing input call", reads, "calls")?;
    let writes = every_failing_write(alloc, text, out)?;
    let writes = print_count(rt, "every failing write", writes, "writes")?;
    Ok(torn && reads && writes)
}

// Runs the rows on generated maps, and prints their lines. Whether all agree.
fn run_generated<R: Print + AllocGlobal>(rt: &R) -> Result<bool, RowsError> {
    let alloc = rt.alloc();
    let small = is_thinned_in_time(alloc, "make 40 40 7")?;
    let small = print_line(rt, "a map of 40 rows in time", small)?;
    let large = is_thinned_in_time(alloc, "make 100 100 7")?;
    let large = print_line(rt, "a map of 100 rows in time", large)?;
    let checks = print_line(rt, "generated map checks yes", checks_yes(alloc)?)?;
    let points = is_thinned_among_points(alloc)?;
    let points = print_line(rt, "600000 points beside a line", points)?;
    let faces = print_line(rt, "faces before and after", has_same_faces(alloc)?)?;
    Ok(small && large && checks && points && faces)
}

// Runs the maps on which a simplifier can turn quadratic, and prints their lines. Whether all are
// thinned.
fn run_hard<R: Print + AllocGlobal>(rt: &R) -> Result<bool, RowsError> {
    let mut all = true;
    for (name, shape, arcs, positions) in [
        ("1000 nested rings", Shape::Nested, 1000, 201),
        ("20000 arcs from one place", Shape::Hub, 20000, 2),
        (
            "one arc of 250000 positions to and fro",
            Shape::Zigzag,
            1,
            250000,
        ),
        ("50 slanting chains", Shape::Slanting, 50, 1024),
    ] {
        let thinned = is_hard_thinned(rt.alloc(), shape, arcs, positions)?;
        all &= print_line(rt, name, thinned)?;
    }
    Ok(all)
}

// Runs everything, and prints the lines. Whether all agree.
fn run_all<R: Print + Files + AllocGlobal>(rt: &R) -> Result<bool, RowsError> {
    let text = fs::read_to_string(rt, ROWS)?;
    let rows = Value::from_str(rt.alloc(), text.as_str())?;
    let rows = list_of(&rows, ROWS)?;
    let table = run_rows(rt, rows)?;
    let provinces = run_provinces(rt, find(rows, PROVINCES)?)?;
    let generated = run_generated(rt)?;
    let hard = run_hard(rt)?;
    Ok(table && provinces && generated && hard)
}

fn main(rt: HostRuntime) -> ExitCode {
    match run_all(&rt) {
        Ok(true) => ExitCode::SUCCESS,
        Ok(false) => ExitCode::FAILURE,
        Err(error) => {
            let _ = eprintln!(rt; "{error}");
            ExitCode::FAILURE
        }
    }
}
