//! Worked rows as a file spells them: what the top call is run on, and what is expected of it.
#![tactic(auto)]

mod call;
mod error;
mod row;
mod texts;

pub use call::{CHUNK, Call, ROOM, add_text, words_of};
pub use error::RowsError;
pub use row::{Difference, Expected, Row, find, list_of, member, read, text_in};
pub use texts::{first_difference, push_piece};
