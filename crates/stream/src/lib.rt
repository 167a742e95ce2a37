// Messages in a byte stream, each behind the four-byte session header of RFC 1002: `reader::read_piece` takes the stream in
// pieces, `writer::write_message` writes a message. specs/Stream.antt says what a stream carries.
#![tactic(auto)]

pub mod header;
pub mod reader;
pub mod state;
pub mod writer;
