// One command of a message carried out on the words of the tables and on the file memory (document 01, "Refusals on the
// wire" and "Locks, reads and writes"; document 02, CR 3 and CR 6): `perform::perform_block`. The definitions are message/specs/Command.antt's.
//
// `words_len`, `good` and `memory_len` stand in the clauses of each function and not in a type. `perform::perform_block`, which is public
// (docs/CLAIMS.md), is lent slices, so that an array of 1,605 words would have to be made of one by a branch that no call takes; and `Good` holds of
// the tables before a command and after it (`invariants`), not between two of its writes, where a type's invariant would have to hold too. The
// caller and the words go together through all commands, but each command reads one and writes the other: one struct of both is no plainer.
#![tactic(auto)]

mod barred;
mod core_commands;
mod leaving;
mod locking;
mod opening;
pub mod perform;
mod reading;
mod sharing;
mod sizing;
mod who;
mod work;
mod writing;
