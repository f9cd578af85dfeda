//! Worked pairs, certificates and texts.
ghost use Rattle.std.specs.Prelude.{◌≤◌, length};
ghost use Rattle.arc_map.specs.Map.{IsArc};

use crate::one_arc;
use crate::parts::{point, stays_on_grid};
use arc_map::{ArcMap, WorkMap};
use arrangement_check::hold;
use cert_checker::{JudgeState, Reason, Verdict, allowed, compare, judge};
use cert_format::read;
use grid_exact::{Bound, Point, Weights};
use monotone_split::split;
use std::alloc::{AllocError, Global};
use std::process::Abort;
use std::test::*;

// Certificates for the arc of `bump`: the right one; with an arc that is held; with no chain; with
// a kept vertex too few; with layers too few; and with a path that is longer than need be.
const TEXTS: [&str; 6] = [
    r#"{"bound":1,"chains":[{"arc":0,"from":0,"kept":[0,3],"layers":[1,1,1,0]}],"version":1}"#,
    r#"{"bound":1,"chains":[],"held":[0],"version":2}"#,
    r#"{"bound":1,"chains":[],"version":1}"#,
    r#"{"bound":1,"chains":[{"arc":0,"from":0,"kept":[0,2],"layers":[1,1,1,0]}],"version":1}"#,
    r#"{"bound":1,"chains":[{"arc":0,"from":0,"kept":[0,3],"layers":[1,1,0]}],"version":1}"#,
    r#"{"bound":1,"chains":[{"arc":0,"from":0,"kept":[0,1,2,3],"layers":[3,2,1,0]}],"version":1}"#,
];

// A certificate for the arc of `peak`.
const STRAIGHT: &str =
    r#"{"bound":5,"chains":[{"arc":0,"from":0,"kept":[0,2],"layers":[1,1,0]}],"version":1}"#;

// The map of one arc and a feature point.
fn map_of(alloc: Global, arc: Vec<Point>, town: Point) -> Result<ArcMap, AllocError>
    requires arc { IsArc arc.items }
    requires short { length arc.items ≤ 4 }
{
    let arcs = vec![in alloc; arc]?;
    let points = vec![in alloc; town]?;
    Ok(ArcMap::new(arcs, points, Vec::new(alloc), false))
}

// An arc with a bump in it, and a feature point far from it.
fn bump(rt: &impl Abort, alloc: Global) -> Result<ArcMap, Fail> {
    let (a, b, c, d) = (point(0, 0)?, point(1, 1)?, point(2, 0)?, point(3, 0)?);
    assert!(rt; a != b);
    assert!(rt; b != c);
    assert!(rt; c != d);
    let arc = vec![in alloc; a, b, c, d]?;
    Ok(map_of(alloc, arc, point(9, 9)?)?)
}

// An arc of two edges with a feature point above or below them.
fn peak(rt: &impl Abort, alloc: Global, town: Point) -> Result<ArcMap, Fail> {
    let (a, b, c) = (point(0, 0)?, point(2, 2)?, point(4, 0)?);
    assert!(rt; a != b);
    assert!(rt; b != c);
    Ok(one_arc(alloc, a, b, c, town)?)
}

// Whether the pair of the first chain is allowed, where the chain has it and stays on the grid.
fn is_allowed(work: &WorkMap, i: u32, j: u32, bound: Bound, weights: Weights) -> Option<bool> {
    if work.chain_count() == 0 {
        return None;
    }
    if i >= j {
        return None;
    }
    if j as usize >= work.chain(0).len() {
        return None;
    }
    match weights.first_off(work.chain(0)) {
        Some(_) => None,
        None => Some(allowed(work, 0, i, j, bound, weights)),
    }
}

#[test]
fn a_town_blocks_the_shortcut(rt: HostRuntime) -> Result<(), Fail> {
    let alloc = rt.alloc();
    let bound = Bound::new(5).ok_or("a bound")?;
    let weights = Weights::new(1, 1).ok_or("weights")?;
    for (y, want) in [(1, false), (3, true)] {
        let map = peak(&rt, alloc, point(2, y)?)?;
        let chains = split(alloc, &map)?;
        let work = WorkMap::new(alloc, map, chains)?;
        assert_eq!(rt;
            is_allowed(&work, 0, 2, bound, weights),
            Some(want),
            "a town at {y}"
        );
        assert_eq!(rt; is_allowed(&work, 0, 1, bound, weights), Some(true));
    }
    Ok(())
}

#[test]
fn texts_are_compared(rt: HostRuntime) {
    assert_eq!(rt; compare(b"", b""), None);
    assert_eq!(rt; compare(b"[1,2]", b"[1,2]"), None);
    assert_eq!(rt; compare(b"[1,2]", b"[1,3]"), Some(3));
    assert_eq!(rt; compare(b"[1,2]", b"[1"), Some(2));
    assert_eq!(rt; compare(b"", b"["), Some(0));
}

// The verdict on the certificate with this text for the map, and how many positions the first arc
// of the judged map has.
fn judged(
    alloc: Global,
    map: ArcMap,
    text: &str,
    version: u32,
    bound: Bound,
    weights: Weights,
) -> Result<(Verdict, usize), Fail> {
    if !stays_on_grid(weights, &map) {
        return Ok((Verdict::No(Reason::Form), 0));
    }
    let cert = read(alloc, text.as_bytes())?;
    let mut state = JudgeState::new(alloc, hold(alloc, map)?)?;
    match judge(&mut state, &cert, version, bound, weights) {
        Verdict::No(reason) => Ok((Verdict::No(reason), 0)),
        Verdict::Yes => Ok((Verdict::Yes, first_count(&state.finish()))),
    }
}

fn first_count(map: &ArcMap) -> usize {
    if map.arc_count() == 0 {
        0
    } else {
        map.arc(0).len()
    }
}

#[test]
fn certificates_are_judged(rt: HostRuntime) -> Result<(), Fail> {
    let alloc = rt.alloc();
    let bound = Bound::new(1).ok_or("a bound")?;
    let weights = Weights::new(1, 1).ok_or("weights")?;
    let versions = [1, 2, 1, 1, 1, 1];
    let wants = [
        Verdict::Yes,
        Verdict::No(Reason::Held(0)),
        Verdict::No(Reason::Chains(0)),
        Verdict::No(Reason::Kept(0)),
        Verdict::No(Reason::Ends(0)),
        Verdict::No(Reason::Layers(0, 0, 2)),
    ];
    let counts = [2, 0, 0, 0, 0, 0];
    for k in 0..6 {
        let got = judged(
            alloc,
            bump(&rt, alloc)?,
            TEXTS[k],
            versions[k],
            bound,
            weights,
        )?;
        assert_eq!(rt; got.0, wants[k]);
        assert_eq!(rt; got.1, counts[k]);
    }
    Ok(())
}

#[test]
fn other_demands_are_refused(rt: HostRuntime) -> Result<(), Fail> {
    let alloc = rt.alloc();
    let weights = Weights::new(1, 1).ok_or("weights")?;
    let heavy = Weights::new(1, 2).ok_or("weights")?;
    let (one, two) = (
        Bound::new(1).ok_or("a bound")?,
        Bound::new(2).ok_or("a bound")?,
    );
    let version = judged(alloc, bump(&rt, alloc)?, TEXTS[0], 2, one, weights)?;
    assert_eq!(rt; version.0, Verdict::No(Reason::Version));
    let bound = judged(alloc, bump(&rt, alloc)?, TEXTS[0], 1, two, weights)?;
    assert_eq!(rt; bound.0, Verdict::No(Reason::Bound));
    let scales = judged(alloc, bump(&rt, alloc)?, TEXTS[0], 1, one, heavy)?;
    assert_eq!(rt; scales.0, Verdict::No(Reason::Weights));
    Ok(())
}

#[test]
fn a_step_past_a_town_is_refused(rt: HostRuntime) -> Result<(), Fail> {
    let alloc = rt.alloc();
    let bound = Bound::new(5).ok_or("a bound")?;
    let weights = Weights::new(1, 1).ok_or("weights")?;
    let below = judged(
        alloc,
        peak(&rt, alloc, point(2, 1)?)?,
        STRAIGHT,
        1,
        bound,
        weights,
    )?;
    assert_eq!(rt; below.0, Verdict::No(Reason::Path(0, 0, 2)));
    let above = judged(
        alloc,
        peak(&rt, alloc, point(2, 3)?)?,
        STRAIGHT,
        1,
        bound,
        weights,
    )?;
    assert_eq!(rt; above.0, Verdict::Yes);
    Ok(())
}
