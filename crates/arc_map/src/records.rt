//! The records of a run over chains, in memory that is taken at the start.
ghost use Rattle.std.specs.Prelude.{◌≡◌, ◌<◌, ◌≤◌, ◌^◌, [], length, IfOk, slice_get};
ghost use Rattle.arc_map.specs.Records.{Record, Records, Fits, pushed};

use grid_exact::NoMemory;
use std::alloc::Global;
use std::marker::Model;

/// What is recorded of one chain.
#[derive(Clone, Copy)]
pub struct ChainRecord<'a> {
    /// the number of the chain's arc
    pub arc: u32,
    /// the place of the chain's first position in the arc as read, from 0
    pub from: u32,
    /// the places in the chain as found, from 0, of the vertices that are kept
    pub kept: &'a [u32],
    /// for each vertex of the chain as found the least number of allowed steps to the last
    pub layers: &'a [u32],
}

// One record: where its parts lie in the lists of all records.
#[derive(Clone, Copy)]
struct Entry {
    arc: u32,
    from: u32,
    kept_start: usize,
    kept_end: usize,
    layers_start: usize,
    layers_end: usize,
}

/// The records of a run, in the order of its chains. Contracts see the list of records, and how
/// many more records, kept places and layers there is room for.
#[derive(Drop)]
pub struct RunRecords {
    entries: Vec<Entry>,
    kept: Vec<u32>,
    layers: Vec<u32>,
    room: usize,
    kept_room: usize,
    layers_room: usize,
}

impl Model for RunRecords {
    ghost use Rattle.arc_map.specs.Records.{Records};

    ghost Value = { Records };

    ghost use Rattle.arc_map.specs.FlatRecords.{records_of, AreFlat};

    ghost view = { records_of };

    ghost invariant = { AreFlat };
}

impl RunRecords {
    /// No records yet, with room for so many records, kept places in sum and layers in sum. There
    /// may be at most `2^20` records. The only error is want of memory.
    pub fn with_room(
        alloc: Global,
        chains: usize,
        kept: usize,
        layers: usize,
    ) -> Result<RunRecords, NoMemory>
        requires { chains ≤ 2 ^ 20 }
        ensures { IfOk result (λ records. records ≡ record {
          entries = [];
          room = chains;
          kept_room = kept;
          layers_room = layers;
        }) }
    {
        Ok(RunRecords {
            entries: Vec::with_capacity(alloc, chains)?,
            kept: Vec::with_capacity(alloc, kept)?,
            layers: Vec::with_capacity(alloc, layers)?,
            room: chains,
            kept_room: kept,
            layers_room: layers,
        })
    }

    /// Adds the record of a chain at the end. There must be room for it: none is taken here.
    pub fn push(&mut self, arc: u32, from: u32, kept: &[u32], layers: &[u32])
        requires { Fits self.old (record {
          arc = arc;
          «from» = from;
          kept = kept.now;
          layers = layers.now;
        }) }
        ensures { self.new ≡ pushed self.old (record {
          arc = arc;
          «from» = from;
          kept = kept.now;
          layers = layers.now;
        }) }
    {
        let kept_start = self.kept.len();
        let layers_start = self.layers.len();
        self.kept.extend_from_slice(kept).unwrap();
        self.layers.extend_from_slice(layers).unwrap();
        self.entries.push_reserved(Entry {
            arc,
            from,
            kept_start,
            kept_end: kept_start + kept.len(),
            layers_start,
            layers_end: layers_start + layers.len(),
        });
        self.room -= 1;
        self.kept_room -= kept.len();
        self.layers_room -= layers.len();
    }

    /// How many records there are.
    pub fn count(&self) -> u32
        ensures value { result ≡ length self.now.entries }
        ensures few { result ≤ 2 ^ 20 }
    {
        self.entries.len() as u32
    }

    /// The record number `k`, from 0.
    pub fn get(&self, k: u32) -> ChainRecord<'_>
        requires { k < length self.now.entries }
        ensures { slice_get self.now.entries k ≡ Some (record {
          arc = result.arc;
          «from» = result.«from»;
          kept = result.kept.now;
          layers = result.layers.now;
        }) }
    {
        let entry = self.entries[k as usize];
        ChainRecord {
            arc: entry.arc,
            from: entry.from,
            kept: &self.kept[entry.kept_start..entry.kept_end],
            layers: &self.layers[entry.layers_start..entry.layers_end],
        }
    }
}
