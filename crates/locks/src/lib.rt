// Ranges and byte-range locks (document 01, "Locks, reads and writes"). The lock list stands in the
// words that the host lends, a count and 128 records in order of grant; each FID's file is read off a
// table of 65 entries, made from the opens, so that a walk over the locks looks at no open.
#![tactic(auto)]

pub mod answer;
pub mod grant;
pub mod grants;
pub mod locking;
pub mod range;
pub mod types;
pub mod unlock;
pub mod walk;
pub mod wire_form;
