// What the case programs print.

ghost use Rattle.text.specs.Over.{Written};
ghost use Rattle.sample.specs.Shown.{answer_text, status_text};

use text::{put_decimal, put_hex_bytes, put_text};

// A call's number, its reply's length, and the reply in hex.
pub fn put_answer(text: &mut [u8], at: usize, number: u8, length: usize, room: &[u8]) -> usize
    ensures { Written text.old at (answer_text number length room.now) text.new result }
{
    let a1 = put_text(text, at, b"number ");
    let a2 = put_decimal(text, a1, number as usize);
    let a3 = put_text(text, a2, b"\nlength ");
    let a4 = put_decimal(text, a3, length);
    let a5 = put_text(text, a4, b"\nreply ");
    let n = length.min(room.len());
    let a6 = put_hex_bytes(text, a5, &room[..n]);
    put_text(text, a6, b"\n")
}

// A name, and the class and code in a reply's header.
pub fn put_status(text: &mut [u8], at: usize, name: &[u8], reply: &[u8]) -> usize
    ensures { Written text.old at (status_text name.now reply.now) text.new result }
{
    let a1 = put_text(text, at, name);
    let a2 = put_text(text, a1, b" ");
    let a3 = put_decimal(text, a2, wire::byte_at(reply, 5) as usize);
    let a4 = put_text(text, a3, b"/");
    let a5 = put_decimal(text, a4, wire::le16_at(reply, 7) as usize);
    put_text(text, a5, b"\n")
}
