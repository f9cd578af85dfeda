//! The best path of a chain and its layers, worked out in memory that is taken once.
ghost use Rattle.std.specs.Prelude.{◌≡◌, ◌+◌, ◌<◌, ◌≤◌, All, IfOk, length};
ghost use Rattle.grid_exact.specs.Paths.{AreLayers, IsBestPath};
ghost use Rattle.grid_exact.specs.Weights.{StaysOnGrid};
ghost use Rattle.arc_map.specs.Chains.{chain_at, chain_places, IsClearIn};
ghost use Rattle.map_index.specs.IndexedMap.{items_in};
ghost use Rattle.layer_paths.specs.Lay.{IsLayered, IsTrail};
ghost use Rattle.chain_replace.specs.Run.{IsAllowedIn, last_of};
ghost use Rattle.chain_replace.specs.Finder.{layers_in};

use crate::terms::Terms;
use crate::weigh::weigh;
use arc_map::NoMemory;
use grid_exact::MAX_CHAIN_VERTICES;
use layer_paths::Layering;
use map_index::IndexedMap;
use shortcut_graph::{Ruler, lay};
use side_wedge::Beside;
use std::alloc::Global;
use std::marker::Model;

// The best path of the chain that was looked at last, with its layers, and the memory in which both
// are worked out. Contracts see the two, and how many items the index of the map may have.
#[derive(Drop)]
pub struct PathFinder {
    layering: Layering,
    beside: Beside,
    xs: Vec<i64>,
    ys: Vec<i64>,
    path: Vec<u32>,
    kept: usize,
}

impl Model for PathFinder {
    ghost use Rattle.chain_replace.specs.Finder.{Found};

    ghost Value = { Found };

    ghost use Rattle.chain_replace.specs.FinderMemory.{found_in, HasPlaces};

    ghost view = { found_in };

    ghost invariant = { HasPlaces };
}

impl PathFinder {
    // Nothing found yet, with room for maps of so many items. The only error is want of memory.
    pub fn with_room(alloc: Global, items: usize) -> Result<PathFinder, NoMemory>
        ensures { IfOk result (λ finder. finder.room ≡ items) }
    {
        Ok(PathFinder {
            layering: Layering::new(alloc)?,
            beside: Beside::with_room(alloc, items)?,
            xs: vec![in alloc; 0; MAX_CHAIN_VERTICES]?,
            ys: vec![in alloc; 0; MAX_CHAIN_VERTICES]?,
            path: vec![in alloc; 0; MAX_CHAIN_VERTICES]?,
            kept: 0,
        })
    }

    // The places in the chain of the vertices on its best path.
    pub fn path(&self) -> &[u32]
        ensures { result.now ≡ self.now.path }
    {
        &self.path[..self.kept]
    }

    // For each vertex of the chain the least number of allowed steps to the last.
    pub fn layers(&self) -> &[u32]
        ensures { result.now ≡ layers_in self.now }
    {
        self.layering.layers()
    }

    // Finds the best path of chain number `k` and its layers. It takes no memory.
    pub fn find(&mut self, map: &IndexedMap, k: u32, terms: &Terms)
        requires chain { k < length map.now.chains }
        requires clear { IsClearIn map.now.chains map.now.read.points k }
        requires room { items_in map.now ≤ self.old.room }
        requires on_grid { All (StaysOnGrid terms.now.weights)
            (chain_places (chain_at map.now.chains k)) }
        ensures path { IsBestPath (IsAllowedIn terms.now map.now k) (last_of map.now k)
            self.new.path }
        ensures layers { AreLayers (IsAllowedIn terms.now map.now k) (last_of map.now k)
            (layers_in self.new) }
        ensures room { self.new.room ≡ self.old.room }
    {
        self.lay(map, k, terms);
        self.write_path();
    }

    // Lays the vertices of chain number `k`.
    fn lay(&mut self, map: &IndexedMap, k: u32, terms: &Terms)
        requires chain { k < length map.now.chains }
        requires clear { IsClearIn map.now.chains map.now.read.points k }
        requires room { items_in map.now ≤ self.old.room }
        requires on_grid { All (StaysOnGrid terms.now.weights)
            (chain_places (chain_at map.now.chains k)) }
        ensures layers { IsLayered (IsAllowedIn terms.now map.now k) (last_of map.now k)
            self.new.lay }
        ensures whole { self.new.lay.front ≡ 0 }
        ensures room { self.new.room ≡ self.old.room }
    {
        if map.chain(k).len() == 2 {
            self.layering.single();
        } else {
            self.search(map, k, terms);
        }
    }

    // Writes the path that the next vertices make up.
    fn write_path(&mut self)
        requires { self.old.lay.front ≡ 0 }
        ensures trail { IsTrail self.new.lay.nexts self.new.lay.last self.new.path }
        ensures lay { self.new.lay ≡ self.old.lay }
        ensures room { self.new.room ≡ self.old.room }
    {
        self.kept = self.layering.write_path(&mut self.path);
    }

    // Lays the vertices by the pairs that are allowed.
    fn search(&mut self, map: &IndexedMap, k: u32, terms: &Terms)
        requires chain { k < length map.now.chains }
        requires clear { IsClearIn map.now.chains map.now.read.points k }
        requires room { items_in map.now ≤ self.old.room }
        requires on_grid { All (StaysOnGrid terms.now.weights)
            (chain_places (chain_at map.now.chains k)) }
        ensures layers { IsLayered (IsAllowedIn terms.now map.now k) (last_of map.now k)
            self.new.lay }
        ensures whole { self.new.lay.front ≡ 0 }
        ensures room { self.new.room ≡ self.old.room }
    {
        let places = map.chain(k);
        let count = places.len();
        self.beside.load(map, k, terms.weights, terms.bound);
        weigh(terms.weights, places, &mut self.xs, &mut self.ys);
        let ruler = Ruler {
            xs: &self.xs[..count],
            ys: &self.ys[..count],
            bound: terms.bound,
            weights: terms.weights,
        };
        lay(&mut self.layering, map, k, &self.beside, &ruler);
    }
}
