//! The arcs that were made so far.
ghost use Rattle.std.specs.Prelude.{◌≡◌, ◌<◌, ◌≤◌, ◌^◌, ◌∷◌, ◌++◌, [], ℤ, pos};
ghost use Rattle.std.specs.Prelude.{IfOk, MatchOption, OnOk, length, map};
ghost use Rattle.indexmap.specs.IndexMap.{get};
ghost use Rattle.topo_build.specs.Found.{IsAlong, IsFound};
ghost use Rattle.topo_build.specs.Table.{ArePut, IsTable, arcs_in, edge, reference, same_edge};

use crate::step::Step;
use grid_exact::Point;
use indexmap::IndexMap;
use std::alloc::{AllocError, Global};

// An edge of an arc, in the direction of the arc.
#[derive(Clone, Copy, PartialEq, Eq, Hash)]
struct Edge {
    start: Point,
    end: Point,
}

// The arcs in the order in which they were made, and for each edge its arc. An edge stands in one
// arc only, so the arc that a piece of a ring is, if it is one, is that of its first edge.
#[derive(Drop)]
pub(crate) struct Arcs {
    arcs: Vec<Vec<Point>>,
    edges: IndexMap<Edge, u32>,
}

impl Arcs {
    // No arcs.
    pub fn new(alloc: Global) -> Arcs
        ensures none { arcs_in result ≡ [] }
        ensures table { IsTable result }
    {
        Arcs {
            arcs: Vec::new(alloc),
            edges: IndexMap::new(alloc),
        }
    }

    // The arcs in order.
    pub fn into_list(self) -> Vec<Vec<Point>>
        ensures { map (λ arc. arc.items) result.items ≡ arcs_in self }
    {
        self.arcs
    }

    // The reference of a piece, which is the next arc if no arc has its first edge.
    pub fn take(&mut self, piece: Vec<Point>) -> Result<Step, AllocError>
        requires table { IsTable self.old }
        requires few { length (arcs_in self.old) < 2 ^ 20 }
        requires several { 2 ≤ length piece.items }
        ensures table { OnOk result (IsTable self.new) }
        ensures found { IfOk result (λ step.
            IsFound piece.items (arcs_in self.old) (reference step) (arcs_in self.new)) }
        ensures known { IfOk result (λ step. step.arc < 2 ^ 20) }
    {
        match self.along(piece[0], piece[1]) {
            Some(step) => Ok(step),
            None => {
                let step = self.add(piece)?;
                Ok(step)
            }
        }
    }

    // The arc with this edge, in the direction of the edge.
    fn along(&self, start: Point, end: Point) -> Option<Step>
        requires { IsTable self.now }
        ensures { MatchOption result
            ((s : ℤ) → ¬ (IsAlong (arcs_in self.now) start end s))
            (λ step. IsAlong (arcs_in self.now) start end (reference step)) }
    {
        match self.arc_with(start, end) {
            Some(arc) => Some(Step {
                arc,
                forwards: true,
            }),
            None => match self.arc_with(end, start) {
                Some(arc) => Some(Step {
                    arc,
                    forwards: false,
                }),
                None => None,
            },
        }
    }

    // The number of the arc with this edge forwards.
    fn arc_with(&self, start: Point, end: Point) -> Option<u32>
        ensures { result ≡ get same_edge self.now.edges (edge start end) }
    {
        self.edges.get(&Edge { start, end }).copied()
    }

    // The next arc.
    pub fn add(&mut self, arc: Vec<Point>) -> Result<Step, AllocError>
        requires table { IsTable self.old }
        requires few { length (arcs_in self.old) < 2 ^ 20 }
        ensures table { OnOk result (IsTable self.new) }
        ensures arcs { OnOk result (arcs_in self.new ≡ arcs_in self.old ++ arc.items ∷ []) }
        ensures step { IfOk result (λ step. reference step ≡ pos (length (arcs_in self.old))) }
        ensures known { IfOk result (λ step. step.arc < 2 ^ 20) }
    {
        let number = self.arcs.len() as u32;
        put(&mut self.edges, arc.as_slice(), number)?;
        self.arcs.push(arc)?;
        Ok(Step {
            arc: number,
            forwards: true,
        })
    }
}

// Puts the number at the edges of the walk.
fn put(edges: &mut IndexMap<Edge, u32>, walk: &[Point], number: u32) -> Result<(), AllocError>
    ensures { OnOk result
        (ArePut walk.now number (get same_edge edges.old) (get same_edge edges.new)) }
{
    for k in 1..walk.len() {
        let edge = Edge {
            start: walk[k - 1],
            end: walk[k],
        };
        edges.insert(edge, number)?;
    }
    Ok(())
}
