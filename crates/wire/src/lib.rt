// Reading little-endian numbers out of a message (document 01, "Header": "32 bytes, little-endian").
// Bytes past the end count as 0: no place is refused, so no caller can break a reading.
#![tactic(auto)]

pub mod fill;

ghost use Rattle.std.specs.Prelude.{◌≡◌, ◌+◌, ◌*◌, length, leb};
ghost use Rattle.wire.specs.LittleEndian.{byte_at, le16_at, le32_at};

// The byte at a place.
pub fn byte_at(s: &[u8], at: usize) -> u8
    ensures { result ≡ byte_at s.now at }
{
    if at < s.len() { s[at] } else { 0 }
}

// Whether that many bytes stand from a place on: one test for all of them.
fn holds(s: &[u8], at: usize, count: usize) -> bool
    ensures { result ≡ leb (at + count) (length s.now) }
{
    count <= s.len() && at <= s.len() - count
}

// Two bytes as a number, the lower first. By a sum, as the definition says it: the faults of the weights are tried on it.
fn pair(low: u8, high: u8) -> u16
    ensures { result ≡ low + 256 * high }
{
    u16::from(low) + 256 * u16::from(high)
}

// Two bytes, the lower first.
pub fn le16_at(s: &[u8], at: usize) -> u16
    ensures { result ≡ le16_at s.now at }
{
    if holds(s, at, 2) {
        return pair(s[at], s[at + 1]);
    }
    u16::from(byte_at(s, at))
}

// Four bytes, the lowest first.
pub fn le32_at(s: &[u8], at: usize) -> u32
    ensures { result ≡ le32_at s.now at }
{
    if holds(s, at, 4) {
        let low = pair(s[at], s[at + 1]);
        return u32::from(low) + 65536 * u32::from(pair(s[at + 2], s[at + 3]));
    }
    if at < s.len() {
        u32::from(le16_at(s, at)) + 65536 * u32::from(le16_at(s, at + 2))
    } else {
        0
    }
}
