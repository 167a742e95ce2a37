// The tables in the words that the host lends (specs/Words.antt has the order): records read and written in place, one table's
// words at a time, and whether the words in use fit.
//
// A table's words are a part of the host's one array, cut out by `&words[a..b]`, which gives a slice: its length is a clause of each function here
// and above, since as an array it would have to be converted by a branch that no call takes.
#![tactic(auto)]

pub mod copy;
pub mod cut;
pub mod file;
pub mod fit;
pub mod lock;
pub mod open;
pub mod record;
pub mod session;
pub mod tree;
