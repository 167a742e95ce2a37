// Soundness of the tables (document 01, "Tables and room"): `whole::is_sound` tests it, for any words that
// the host lends. `tree_words` looks a tree up, and `open_words::file_table` gives the file of each FID.
//
// `sessions_marked`, `trees_marked` and `opens_marked` are three walks over different records, each with its rule and its table by number: one
// over any record would take all three as closures, whose clauses are longer than the walk.
#![tactic(auto)]

mod by_number;
mod file_words;
mod lock_words;
pub mod open_words;
mod seen_words;
mod session_words;
pub mod tree_words;
pub mod whole;
