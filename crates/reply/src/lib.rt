// The bytes of a reply, written front to back into the room that the caller lends (document 01, "Header" and "Reply blocks"):
// `header::write_header` and, for each block, `block::write_block`. No byte once written is changed.
#![tactic(auto)]

pub mod block;
pub mod header;
mod little_endian;
