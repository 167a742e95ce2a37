// The line of a call.

ghost use Rattle.text.specs.Over.{Written};
ghost use Rattle.replay.specs.Line.{holder_text, call_line};

use locks::types::Holder;
use text::{put_decimal, put_hex_bytes, put_number, put_text};

// Who holds the lock in the way (document 02, CR 2): FID, process, place, offset and length, or nothing.
fn put_held_by(text: &mut [u8], at: usize, who: Option<Holder>) -> usize
    ensures { Written text.old at (holder_text who) text.new result }
{
    match who {
        None => at,
        Some(h) => {
            let l = h.lock;
            let a1 = put_number(text, at, l.fid as usize);
            let a2 = put_number(text, a1, l.process as usize);
            let a3 = put_number(text, a2, h.place);
            let a4 = put_number(text, a3, l.offset as usize);
            put_number(text, a4, l.length as usize)
        }
    }
}

// Its number, the number given out or the reply's length, the reply in hex, the digest of the state it left, and the holder.
pub(crate) fn put_line(
    text: &mut [u8],
    number: u8,
    value: usize,
    reply: &[u8],
    digest: usize,
    who: Option<Holder>,
) -> usize
    ensures { Written text.old 0 (call_line number value reply.now digest who) text.new result }
{
    let a1 = put_decimal(text, 0, number as usize);
    let a2 = put_number(text, a1, value);
    let a3 = put_text(text, a2, b" ");
    let a4 = put_hex_bytes(text, a3, reply);
    let a5 = put_number(text, a4, digest);
    let a6 = put_held_by(text, a5, who);
    put_text(text, a6, b"\n")
}
