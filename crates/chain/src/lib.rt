// The chain of a message: its blocks one by one (`message_reader::judge_at` says whether one stands at a
// place, `parse::fields_at` takes it apart) and as a whole (`reader::is_sentence`), by document 01, "The
// grammar of a chain", and document 02, CR 3 and CR 6. `header::is_dropped` is row 1 of "What a call returns".
#![tactic(auto)]

pub mod block;
pub mod command;
pub mod header;
mod judge;
pub mod message_reader;
pub mod parse;
mod place;
pub mod reader;
mod shape;
