//! The least vertices of layers.
ghost use Rattle.std.specs.Prelude.{◌≡◌, ◌+◌, ◌-◌, ◌<◌, ◌≤◌, ℕ, IfOk, length, replicate};
ghost use Rattle.std.specs.Prelude.{slice_index, slice_set};

use grid_exact::MAX_CHAIN_VERTICES;
use std::alloc::{AllocError, Global};

// Room for the layers of the longest chain, each 0.
pub fn no_layers(alloc: Global) -> Result<Vec<u32>, AllocError>
    ensures { IfOk result (λ list. list.items ≡ replicate 1024 0) }
{
    match vec![in alloc; 0; MAX_CHAIN_VERTICES] {
        Ok(list) => Ok(list),
        Err(error) => Err(error),
    }
}

// Room for a vertex for each of the longest chain, all the same.
pub fn vertices(alloc: Global, vertex: usize) -> Result<Vec<usize>, AllocError>
    ensures { IfOk result (λ list. list.items ≡ replicate 1024 vertex) }
{
    match vec![in alloc; vertex; MAX_CHAIN_VERTICES] {
        Ok(list) => Ok(list),
        Err(error) => Err(error),
    }
}

// Leaves the first `count` layers without a vertex: their least is `past`, which is past all
// vertices.
pub fn empty_heads(heads: &mut Vec<usize>, count: usize, past: usize)
    requires { count ≤ length heads.old.items }
    ensures empty { (k : ℕ) → k < count → slice_index heads.new.items k ≡ past }
    ensures length { length heads.new.items ≡ length heads.old.items }
{
    for layer in 0..count {
        heads[layer] = past;
    }
}

// The layer, from `top` down, below which none has its least vertex up to `reach`.
pub fn lowest_layer(heads: &[usize], top: usize, reach: usize) -> usize
    requires { top < length heads.now }
    ensures high { result ≤ top }
    ensures below { 0 < result → reach < slice_index heads.now (result - 1) }
{
    let mut layer = top;
    while layer > 0 && heads[layer - 1] <= reach {
        layer -= 1;
    }
    layer
}

// The first layer from `least` on that has its least vertex up to `reach`. The layer `top` has.
pub fn first_layer(heads: &[usize], least: usize, top: usize, reach: usize) -> usize
    requires order { least ≤ top }
    requires in_list { top < length heads.now }
    requires reached { slice_index heads.now top ≤ reach }
    ensures low { least ≤ result }
    ensures high { result ≤ top }
    ensures reached { slice_index heads.now result ≤ reach }
    ensures none { (k : ℕ) → least ≤ k → k < result → reach < slice_index heads.now k }
{
    let mut layer = least;
    while heads[layer] > reach {
        layer += 1;
    }
    layer
}

// Writes the layer of a vertex, one more than that of its next vertex, and answers it.
pub fn raise(layers: &mut Vec<u32>, vertex: usize, next: usize) -> usize
    requires vertex { vertex < length layers.old.items }
    requires next { next < length layers.old.items }
    requires few { slice_index layers.old.items next < 1024 }
    ensures layer { result ≡ slice_index layers.old.items next + 1 }
    ensures layers { layers.new.items ≡ slice_set layers.old.items vertex result }
{
    let layer = layers[next] + 1;
    layers[vertex] = layer;
    layer as usize
}

// Makes a vertex the head of its layer. The head of before comes next after it.
pub fn thread(heads: &mut Vec<usize>, links: &mut Vec<usize>, layer: usize, vertex: usize)
    requires layer { layer < length heads.old.items }
    requires vertex { vertex < length links.old.items }
    ensures links { links.new.items ≡ slice_set links.old.items vertex
        (slice_index heads.old.items layer) }
    ensures heads { heads.new.items ≡ slice_set heads.old.items layer vertex }
{
    links[vertex] = heads[layer];
    heads[layer] = vertex;
}
