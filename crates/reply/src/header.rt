// A reply's header (document 01, "Header"; document 02, CR 7).

ghost use Rattle.std.specs.Prelude.{◌≡◌, ◌+◌, ◌*◌, ◌/◌, ◌%◌, ◌≤◌, length};
ghost use Rattle.lists.specs.Put.{put};
ghost use Rattle.message.specs.Reply.{nt_bit, status_number, reply_header};
ghost use Rattle.reply.specs.Fronts.{header_start, header_flags};

use crate::little_endian::{high, low};
use chain::header::{COMMAND, FIRST, TID};
use message::refusal::Forms;
use wire::byte_at;
use wire::fill::lay;

// "Flags is 0x80 plus the request's 0x08"
fn reply_flags(flags: u8) -> u8
    ensures { result ≡ 128 + flags / 8 % 2 * 8 }
{
    let kept = flags / 8 % 2 * 8;
    128 + kept
}

// Whether Flags2 bit 0x4000 is set in a request: bit 0x40 of the byte at 11.
#[tactic(auto, unfolding(message::specs::Reply::nt_bit))]
fn nt_asked(s: &[u8]) -> bool
    ensures { result ≡ nt_bit s.now }
{
    byte_at(s, 11) / 64 % 2 == 1
}

// "With the bit set in a request, the reply .. carries" the NTSTATUS; else "SMBSTATUS is class, 0, code", as one number.
#[tactic(auto, unfolding(message::specs::Reply::status_number, message::specs::Reply::smb_number))]
fn status_number(s: &[u8], forms: Forms) -> u32
    ensures { result ≡ status_number s.now forms }
{
    if nt_asked(s) {
        forms.nt
    } else {
        u32::from(forms.status.class) + 65536 * u32::from(forms.status.code)
    }
}

// "A reply copies Command"; Status, "little-endian".
fn write_status(s: &[u8], forms: Forms, room: &mut [u8])
    requires { 9 ≤ length room.old }
    ensures { room.new ≡ put room.old 0 (header_start s.now forms) }
{
    let command = byte_at(s, COMMAND);
    let number = status_number(s, forms) as usize;
    let n0 = low(number);
    let n1 = high(number);
    let upper = number / 65536;
    let n2 = low(upper);
    let n3 = high(upper);
    let start = [0xff, 0x53, 0x4d, 0x42, command, n0, n1, n2, n3];
    lay(&start, room);
}

// "A reply copies .. PIDHigh"; Flags2 keeps 0x0001, and "With the bit set in a request, the reply sets it": the request's
// & 0x4001; "the rest is 0 but for Status."
fn write_flags(s: &[u8], room: &mut [u8])
    requires { 15 ≤ length room.old }
    ensures { room.new ≡ put room.old 0 (header_flags s.now) }
{
    let flags = reply_flags(byte_at(s, 9));
    let flags2 = byte_at(s, 10) % 2;
    let asked = byte_at(s, 11) / 64 % 2 * 64;
    let h0 = byte_at(s, 12);
    let h1 = byte_at(s, 13);
    let middle = [flags, flags2, asked, h0, h1, 0, 0, 0, 0, 0, 0, 0, 0, 0, 0];
    lay(&middle, room);
}

// "A reply copies .. TID, PIDLow, UID and MID", which end the header.
pub fn write_header(s: &[u8], forms: Forms, room: &mut [u8])
    requires in_bounds { 32 ≤ length s.now }
    requires in_bounds_2 { 32 ≤ length room.old }
    ensures { room.new ≡ put room.old 0 (reply_header s.now forms) }
{
    write_status(s, forms, room);
    write_flags(s, &mut room[9..]);
    lay(&s[TID..FIRST], &mut room[TID..]);
}
