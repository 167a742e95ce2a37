// The names of the catalogue (document 02, CR 6), in the 225 words of its part: `rules` tests them, and `find` looks one up.
#![tactic(auto)]

mod compare;
pub mod find;
pub mod rules;
