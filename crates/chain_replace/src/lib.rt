//! The run over the chains of a map: each is replaced by its best path in the map as the chains
//! before it left it.
#![tactic(auto)]

mod finder;
mod laws;
mod run;
mod terms;
mod weigh;

pub use laws::{layers_certify_path, outcome_is_one, outcome_keeps_faces, outcome_thins_arcs};
pub use run::{Outcome, RunState, run_chains};
pub use terms::Terms;
