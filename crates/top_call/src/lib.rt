//! The top call of the command-line tool: what the words of a command line ask for is done over
//! texts and sinks that the caller brings.
#![tactic(auto)]

mod building;
mod causes;
mod checking;
mod demo;
mod dissolving;
mod faces;
mod forms;
mod judged_laws;
mod laws;
mod lists;
mod loading;
mod message;
mod parts;
mod ranking;
mod running;
mod status;
mod texts;
mod thinning;
mod verdict;
mod words;

pub use forms::{Options, Request};
pub use judged_laws::{checked_yes_are_right, yes_keeps_faces, yes_keeps_fewest, yes_thins_arcs};
pub use laws::{
    answer_is_one, certified_is_short, check_answers_yes, faces_answers_alike, outcome_keeps_lines,
    records_are_judged_yes, simplified_checks_yes, simplified_is_short, simplified_keeps_lines,
    simplified_reads_back,
};
pub use running::run;
pub use status::{Limit, Meeting, Role, Status};
pub use words::request;
