//! The layers of the vertices of a chain, laid from the last vertex back.
ghost use Rattle.std.specs.Prelude.{
  ◌≡◌,
  ◌+◌,
  ◌<◌,
  ◌≤◌,
  IfOk,
  length,
  replicate,
  take,
  drop,
  slice_index,
  slice_set,
};
ghost use Rattle.layer_paths.specs.Lay.{IsSingle, IsTrail};
ghost use Rattle.layer_paths.specs.Order.{IsForemost, IsFollowing};

use crate::heads::{empty_heads, first_layer, lowest_layer, no_layers, raise, thread, vertices};
use crate::trail::write_trail;
use grid_exact::{MAX_CHAIN_VERTICES, NoMemory};
use std::alloc::Global;
use std::marker::Model;

/// The vertices of a chain from the front one to the last, each with its layer and with the next
/// vertex of a path from it. The layer of the last vertex is 0, and that of another is one more
/// than the layer of its next vertex. Vertices come one before the other by their layers, and those
/// of one layer by their numbers. Contracts see the last vertex, the front one, the layers and the
/// next vertices.
#[derive(Drop)]
pub struct Layering {
    last: usize,
    front: usize,
    layers: Vec<u32>,
    nexts: Vec<usize>,
    // of each layer the least vertex from the front one on
    heads: Vec<usize>,
    // of each vertex the next one of its layer
    links: Vec<usize>,
}

impl Model for Layering {
    ghost use Rattle.layer_paths.specs.Lay.{Lay};

    ghost Value = { Lay };

    ghost use Rattle.layer_paths.specs.Threads.{lay_of, IsThreaded};

    ghost view = { lay_of };

    ghost invariant = { IsThreaded };
}

impl Layering {
    /// The vertex 0 alone, with room for the vertices of any chain. The only error is want of
    /// memory.
    pub fn new(alloc: Global) -> Result<Layering, NoMemory>
        ensures { IfOk result (λ lay. lay ≡ record {
          last = 0;
          front = 0;
          layers = replicate 1024 0;
          nexts = replicate 1024 0;
        }) }
    {
        let layers = no_layers(alloc)?;
        let nexts = vertices(alloc, 0)?;
        let heads = vertices(alloc, 0)?;
        let links = vertices(alloc, MAX_CHAIN_VERTICES)?;
        Ok(Layering {
            last: 0,
            front: 0,
            layers,
            nexts,
            heads,
            links,
        })
    }

    /// Lays one step, from 0 to 1.
    pub fn single(&mut self)
        ensures { IsSingle self.new }
    {
        self.begin(1);
        self.put(1);
    }

    /// Begins with this last vertex alone.
    pub fn begin(&mut self, last: usize)
        requires { last < MAX_CHAIN_VERTICES }
        ensures last { self.new.last ≡ last }
        ensures front { self.new.front ≡ last }
        ensures layer { slice_index self.new.layers last ≡ 0 }
        ensures room { last < length self.new.layers }
        ensures next_room { last < length self.new.nexts }
    {
        empty_heads(&mut self.heads, last + 1, last + 1);
        self.heads[0] = last;
        self.layers[last] = 0;
        self.links[last] = last + 1;
        self.last = last;
        self.front = last;
    }

    /// Puts the vertex before the front one in front, with this next vertex.
    pub fn put(&mut self, next: usize)
        requires before { 0 < self.old.front }
        requires after { self.old.front ≤ next }
        requires within { next ≤ self.old.last }
        requires near { slice_index self.old.layers next ≤ slice_index self.old.layers
            self.old.front }
        ensures last { self.new.last ≡ self.old.last }
        ensures front { self.new.front + 1 ≡ self.old.front }
        ensures layers { self.new.layers ≡ slice_set self.old.layers self.new.front (slice_index
            self.old.layers next + 1) }
        ensures nexts { self.new.nexts ≡ slice_set self.old.nexts self.new.front next }
    {
        let vertex = self.front - 1;
        let layer = raise(&mut self.layers, vertex, next);
        self.nexts[vertex] = next;
        thread(&mut self.heads, &mut self.links, layer, vertex);
        self.front = vertex;
    }

    // The layer of a vertex from the front one on.
    fn layer(&self, vertex: usize) -> usize
        requires { vertex ≤ self.now.last }
        ensures { result ≡ slice_index self.now.layers vertex }
    {
        self.layers[vertex] as usize
    }

    /// The last vertex.
    pub fn last(&self) -> usize
        ensures { result ≡ self.now.last }
    {
        self.last
    }

    /// The vertex that comes first of all.
    pub fn first(&self) -> usize
        ensures { IsForemost self.now.layers self.now.front self.now.last 0 result }
    {
        self.first_from(0, self.last)
    }

    // The vertex that comes first of those of this layer or a greater one, up to `reach`.
    fn first_from(&self, least: usize, reach: usize) -> usize
        requires low { least ≤ slice_index self.now.layers self.now.front }
        requires after { self.now.front ≤ reach }
        requires within { reach ≤ self.now.last }
        ensures { IsForemost self.now.layers self.now.front reach least result }
    {
        let top = self.layer(self.front);
        let layer = first_layer(&self.heads, least, top, reach);
        self.heads[layer]
    }

    /// The vertex that comes next after this one, of those up to `reach`. The front vertex comes
    /// after it.
    pub fn following(&self, vertex: usize, reach: usize) -> usize
        requires after { self.now.front ≤ vertex }
        requires within { vertex ≤ self.now.last }
        requires before { slice_index self.now.layers vertex < slice_index self.now.layers
            self.now.front }
        requires front { self.now.front ≤ reach }
        requires last { reach ≤ self.now.last }
        ensures { IsFollowing self.now.layers self.now.front reach vertex result }
    {
        let next = self.links[vertex];
        if next <= reach {
            return next;
        }
        let above = self.layer(vertex) + 1;
        if self.heads[above] <= reach {
            return self.first_from(above, reach);
        }
        let lowest = lowest_layer(&self.heads, self.layer(self.front), reach);
        self.first_from(lowest.max(above), reach)
    }

    /// The layers of the vertices from 0 on. The front vertex is 0.
    pub fn layers(&self) -> &[u32]
        ensures { result.now ≡ take (self.now.last + 1) self.now.layers }
    {
        &self.layers[..self.last + 1]
    }

    /// Writes the way from 0 to the last vertex, over the next vertex of each, to the front of
    /// `out`, and answers how many vertices it has. The rest of `out` stays. The front vertex is 0.
    pub fn write_path(&self, out: &mut [u32]) -> usize
        requires whole { self.now.front ≡ 0 }
        requires room { MAX_CHAIN_VERTICES ≤ length out.old }
        ensures within { result ≤ self.now.last + 1 }
        ensures short { result ≤ MAX_CHAIN_VERTICES }
        ensures trail { IsTrail self.now.nexts self.now.last (take result out.new) }
        ensures rest { drop result out.new ≡ drop result out.old }
    {
        write_trail(&self.nexts, self.last, out)
    }
}
