//! The arcs of a map, cut into runs of a few edges.
ghost use Rattle.std.specs.Prelude.{◌≡◌, ◌<◌, ◌≤◌, ◌+◌, ◌^◌, IfOk, OnOk, length};
ghost use Rattle.arc_map.specs.Arranged.{arc_at};
ghost use Rattle.face_parity.specs.Bounds.{IsOffsetOf};
ghost use Rattle.face_parity.specs.Floors.{AreFloorsOf, IsUnder};
ghost use Rattle.face_parity.specs.Runs.{AreRunsBefore, AreRunsOf, IsRunIn, is_run_crossed};
ghost use Rattle.face_parity.specs.Runs.{run_part};

use crate::bounds::{Bounds, Ends, Offset};
use crate::crossings::is_crossed_oddly;
use crate::floors::Floors;
use arc_map::{ArcMap, NoMemory};
use grid_exact::Point;
use std::alloc::{AllocError, Global};

// How many edges a run has at most.
const EDGES: usize = 16;

// The edges of an arc between two of its positions, by their numbers; a box round their positions,
// the x at which they begin and end, and a y below which no point is in a polygon that names the
// arc.
#[derive(Clone, Copy)]
pub(crate) struct Run {
    pub arc: u32,
    pub from: u32,
    pub to: u32,
    pub floor: u32,
    pub bounds: Bounds,
    pub ends: Ends,
}

impl Run {
    // The run of the arc with these positions between two of them.
    fn of(positions: &[Point], arc: u32, from: usize, to: usize, floor: u32) -> Run
        requires edge { from < to }
        requires within { to < length positions.now }
        requires short { length positions.now ≤ 2 ^ 20 }
        ensures run { IsRunIn positions.now result }
        ensures arc { result.arc ≡ arc }
        ensures from { result.from ≡ from }
        ensures to { result.to ≡ to }
        ensures floor { result.floor ≤ floor }
    {
        let part = &positions[from..to + 1];
        let bounds = Bounds::round(part);
        Run {
            arc,
            from: from as u32,
            to: to as u32,
            floor: floor.min(bounds.south),
            bounds,
            ends: Ends::of(part),
        }
    }

    // Whether an odd number of edges of the run are crossed from p, which stands at this offset.
    pub fn is_crossed_oddly(&self, topology: &ArcMap, p: Point, at: Offset) -> bool
        requires run { IsRunIn (arc_at topology.now self.now.arc) self.now }
        requires at { IsOffsetOf p at }
        ensures { result ≡ is_run_crossed topology.now p self.now }
    {
        if !self.bounds.reaches(at) {
            return false;
        }
        if at.y < self.bounds.south {
            return self.ends.part(at.x);
        }
        is_crossed_oddly(self.positions(topology), p)
    }

    // The positions of the run.
    fn positions<'a>(&self, topology: &'a ArcMap) -> &'a [Point]
        requires { IsRunIn (arc_at topology.now self.now.arc) self.now }
        ensures { result.now ≡ run_part (arc_at topology.now self.now.arc) self.now }
    {
        let positions = topology.arc(self.arc);
        &positions[self.from as usize..self.to as usize + 1]
    }
}

// The runs of the arcs of the map.
pub(crate) fn runs_of(alloc: Global, map: &ArcMap, floors: &Floors) -> Result<Vec<Run>, NoMemory>
    requires { AreFloorsOf map.now floors.now }
    ensures { IfOk result (λ runs. AreRunsOf map.now floors.now runs.items) }
{
    let mut runs = Vec::new(alloc);
    for arc in 0..map.arc_count() {
        push_arc(&mut runs, map, floors, arc)?;
    }
    Ok(runs)
}

// Adds the runs of the arc.
fn push_arc(runs: &mut Vec<Run>, map: &ArcMap, floors: &Floors, arc: u32) -> Result<(), AllocError>
    requires arc { arc < length map.now.arcs }
    requires floors { length floors.now.arcs.items ≡ length map.now.arcs }
    requires so_far { AreRunsBefore map.now floors.now arc runs.old.items }
    ensures runs { OnOk result (AreRunsBefore map.now floors.now (arc + 1) runs.new.items) }
    ensures few { OnOk result (length runs.new.items
        ≤ length runs.old.items + length (arc_at map.now arc)) }
{
    let positions = map.arc(arc);
    let floor = floors.of_arc(arc);
    let mut from = 0;
    while from + 1 < positions.len() {
        let to = (from + EDGES).min(positions.len() - 1);
        runs.push(Run::of(positions, arc, from, to, floor))?;
        from = to;
    }
    Ok(())
}
