//! How far from a run a place can be that changes sides where the run is cut short, and the boxes
//! in which such places are looked for.
#![tactic(auto)]

mod blocks;
mod extent;
mod laws;
mod parts;
mod steps;

pub use blocks::{block_end, block_round, block_size, may_reach, next_parts, next_size};
pub use extent::Extent;
pub use laws::{
    boxes_find_reach, close_is_in_reach, close_is_in_steps, in_reach_or_out, only_close_counts,
    only_close_counts_of_chain, only_reach_counts, only_reach_counts_of_chain, out_of_hull_is_even,
    out_of_hull_keeps_side, out_of_reach_is_even, out_of_reach_keeps_side, reach_is_in_steps,
};
pub use parts::part_round;
pub use steps::Steps;
