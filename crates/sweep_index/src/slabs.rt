//! The edges of a map by the x that they span.
ghost use Rattle.std.specs.Prelude.{◌≡◌, ◌<◌, ◌+◌, ◌-◌, ◌/◌, ◌++◌, ◌↔◌, IsTrue, IfOk, OnOk, IfSome};
ghost use Rattle.std.specs.Prelude.{IfNone, length, ◌∷◌, []};
ghost use Rattle.std.specs.List.Sorted.{IsNonDecreasingBy};
ghost use Rattle.grid_exact.specs.Geometry.{IsGridNumber};
ghost use Rattle.arc_map.specs.Map.{Map};
ghost use Rattle.sweep_index.specs.Gathered.{made_over};
ghost use Rattle.sweep_index.specs.Slabs.{AreEdgesAt, AreEdgesBefore, edges_at, slab_of};

use crate::bands::Measures;
use crate::grid::offset;
use crate::things::Extent;
use arc_map::{ArcMap, EdgeRef, NoMemory};
use grid_exact::MAX_COORDINATE;
use std::alloc::{AllocError, Global};

// An edge in a slab of x that it spans, from west to east in offsets.
#[derive(Clone, Copy)]
pub struct Slabbed {
    pub slab: u32,
    pub west: u32,
    pub east: u32,
    pub edge: EdgeRef,
}

/// The edges of a map by the x that they span.
#[derive(Drop)]
pub struct EdgeSlabs {
    edges: Vec<Slabbed>,
    width: u32,
    ghost wide: { 0 < width },
    ghost sorted: { IsNonDecreasingBy (λ s. s.slab) edges.items },
}

impl EdgeSlabs {
    ghost use Rattle.sweep_index.specs.EdgeSlabs.{AreSlabsOf, edges_of};
    ghost use Rattle.sweep_index.specs.EdgeWalk.{edges_left};

    /// The edges of the map by the x that they span. The only error is want of memory.
    pub fn build(alloc: Global, map: &ArcMap) -> Result<EdgeSlabs, NoMemory>
        ensures { IfOk result (AreSlabsOf map.now) }
    {
        let width = Measures::of(map).slab_width();
        let mut edges = Vec::new(alloc);
        for arc in 0..map.arc_count() {
            push_arc(&mut edges, map, arc, width)?;
        }
        edges.sort_unstable_by_key(|edge| edge.slab);
        Ok(EdgeSlabs { edges, width })
    }

    /// Each edge whose closed x range holds x, once. Where x is off the grid there is none.
    pub fn at_x(&self, x: i64) -> EdgeWalk<'_>
        ensures value { IsGridNumber x → edges_left result ≡ edges_of self.now x }
        ensures edges { (m : Map) → AreSlabsOf m self.now → AreEdgesAt m x (edges_left result) }
    {
        if !is_on_grid(x) {
            return EdgeWalk { rest: &[], x: 0 };
        }
        let x = offset(x);
        EdgeWalk {
            rest: in_slab(self.edges.as_slice(), x / self.width),
            x,
        }
    }
}

// Whether x is a coordinate of the grid.
fn is_on_grid(x: i64) -> bool
    ensures { IsTrue result ↔ IsGridNumber x }
{
    -MAX_COORDINATE <= x && x <= MAX_COORDINATE
}

// The edges of one slab.
fn in_slab(edges: &[Slabbed], slab: u32) -> &[Slabbed]
    requires { IsNonDecreasingBy (λ s. s.slab) edges.now }
    ensures { result.now ≡ slab_of slab edges.now }
{
    let start = edges.partition_point(|edge| edge.slab < slab);
    let behind = &edges[start..];
    let count = behind.partition_point(|edge| edge.slab == slab);
    &behind[..count]
}

// Adds the edges of the arc, each to the slabs that it spans.
fn push_arc(edges: &mut Vec<Slabbed>, map: &ArcMap, arc: u32, width: u32) -> Result<(), AllocError>
    requires arc { arc < length map.now.arcs }
    requires wide { 0 < width }
    requires so_far { AreEdgesBefore map.now width arc 0 edges.old.items }
    ensures { OnOk result (AreEdgesBefore map.now width (arc + 1) 0 edges.new.items) }
{
    let positions = map.arc(arc);
    for at in 1..positions.len() {
        let extent = Extent::of(positions[at - 1], positions[at]);
        let edge = EdgeRef {
            arc,
            at: at as u32 - 1,
        };
        push_edge(edges, extent.west, extent.east, edge, width)?;
    }
    Ok(())
}

// Adds the edge to the slabs that it spans.
fn push_edge(
    edges: &mut Vec<Slabbed>,
    west: u32,
    east: u32,
    edge: EdgeRef,
    width: u32,
) -> Result<(), AllocError>
    requires { 0 < width }
    ensures { OnOk result (edges.new.items ≡ edges.old.items
        ++ made_over (λ slab. record { slab = slab; west = west; east = east; edge = edge })
        (west / width) (east / width + 1 - west / width)) }
{
    for slab in west / width..=east / width {
        edges.push(Slabbed {
            slab,
            west,
            east,
            edge,
        })?;
    }
    Ok(())
}

/// Edges whose x range holds one x.
#[derive(Clone, Copy)]
pub struct EdgeWalk<'a> {
    rest: &'a [Slabbed],
    x: u32,
}

impl<'a> Iterator for EdgeWalk<'a> {
    ghost use Rattle.std.specs.Iterator.{YieldsFirst, item_count};
    ghost use Rattle.sweep_index.specs.EdgeWalk.{edges_left};

    type Item = EdgeRef;

    ghost next_gives = { YieldsFirst edges_left };

    ghost remaining = { item_count edges_left };

    fn next(&mut self) -> Option<EdgeRef> {
        let (found, rest) = first_at(self.rest, self.x)?;
        self.rest = rest;
        Some(found)
    }
}

// The first edge whose range holds x, and the edges after it.
fn first_at(edges: &[Slabbed], x: u32) -> Option<(EdgeRef, &[Slabbed])>
    ensures found { IfSome result (λ r. edges_at x edges.now ≡ r.0 ∷ edges_at x r.1.now) }
    ensures none { IfNone result (edges_at x edges.now ≡ []) }
{
    let mut rest = edges;
    while let Some((edge, others)) = rest.split_first() {
        if edge.west <= x && x <= edge.east {
            return Some((edge.edge, others));
        }
        rest = others;
    }
    None
}
