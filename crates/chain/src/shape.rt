// The shape of a block: WordCount, the words, ByteCount, the bytes, all inside the message.

ghost use Rattle.std.specs.Prelude.{◌≡◌, ◌+◌, ◌*◌, ◌≤◌, ◌<◌, length};
ghost use Rattle.wire.specs.LittleEndian.{le16_at};
ghost use Rattle.chain.specs.Layout.{block_end};
ghost use Rattle.chain.specs.Parse.{shaped, bare, link_at};

use crate::block::{Follower, Next};
use crate::command::NO_COMMAND;

// Where the block at a place ends.
pub(crate) fn block_end(s: &[u8], at: usize) -> usize
    requires { at < length s.now }
    ensures { result ≡ block_end s.now at }
{
    let words = wire::byte_at(s, at) as usize;
    let bytes = wire::le16_at(s, at + 1 + 2 * words) as usize;
    at + 3 + 2 * words + bytes
}

// Two bytes as a number, the lower first, that are known to stand inside the message.
pub(crate) fn number_inside(s: &[u8], at: usize) -> u16
    requires { at + 2 ≤ length s.now }
    ensures { result ≡ le16_at s.now at }
{
    u16::from_le_bytes([s[at], s[at + 1]])
}

// Where the block at a place ends, that is known to stand inside the message: it asks no place again, which `block_end` does, for speed.
pub(crate) fn end_inside(s: &[u8], at: usize) -> usize
    requires { block_end s.now at ≤ length s.now }
    ensures { result ≡ block_end s.now at }
{
    let words = wire::byte_at(s, at) as usize;
    let bytes = number_inside(s, at + 1 + 2 * words) as usize;
    at + 3 + 2 * words + bytes
}

// Whether a block of that many words stands at a place, inside the message.
pub(crate) fn has_shape(s: &[u8], at: usize, words: u8) -> bool
    ensures { result ≡ shaped s.now at words }
{
    if s.len() <= at {
        return false;
    }
    if wire::byte_at(s, at) != words {
        return false;
    }
    block_end(s, at) <= s.len()
}

// The same, and the block has no bytes.
pub(crate) fn is_bare(s: &[u8], at: usize, words: u8) -> bool
    ensures { result ≡ bare s.now at words }
{
    if !has_shape(s, at, words) {
        return false;
    }
    let count = at + 1 + 2 * (words as usize);
    wire::le16_at(s, count) == 0
}

// What the AndX words name, that are known to stand inside the message.
pub(crate) fn link_at(s: &[u8], at: usize) -> Next
    requires { at + 5 ≤ length s.now }
    ensures { result ≡ link_at s.now at }
{
    let next = s[at + 1];
    if next == NO_COMMAND {
        return None;
    }
    let place = number_inside(s, at + 3) as usize;
    Some(Follower {
        command: next,
        at: place,
    })
}
