// The host calls on the words that the host lends (document 01, "What a call returns"): `session::add_session`,
// `tree::add_tree`, `open::add_open`, `file::load_file`, `connection::drop_connection`, `names::set_catalogue`,
// `unchanged::ask_unchanged` and `ending::end_one`; and `empty::empty_words` to start from.
//
// Each call has two halves, the test of the words and the call on sound tables. The test stands in each: that a call answers 4 for words that do not fit
// is tried in each by a fault of its own (`session_to_unsound`, `tree_to_unsound`, `drop_from_unsound` ..).
#![tactic(auto)]

pub mod answer;
mod append;
pub mod connection;
pub mod empty;
pub mod ending;
pub mod file;
pub mod names;
pub mod open;
pub mod session;
pub mod tree;
pub mod unchanged;
