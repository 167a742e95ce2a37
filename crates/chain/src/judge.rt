// One block, judged by its command: a row of the grammar's table each. Nothing of it is taken apart.

ghost use Rattle.std.specs.Prelude.{◌≡◌, ◌+◌, ◌≤◌, ◌<◌, length, Some};
ghost use Rattle.chain.specs.Layout.{block_end};
ghost use Rattle.chain.specs.Parse.{locking_fits, read_fits, write_fits, data_inside, core_write_fits, terminated, open_fits, parse};
ghost use Rattle.chain.specs.Rows.{row_fits, link_judged};
ghost use Rattle.chain.specs.Judged.{judged};

use crate::block::{Follower, Judged};
use crate::command::{NO_COMMAND, ServedRequest, is_andx, may_follow, request_named};
use crate::place::{
    CORE_COUNT, CORE_WRITE_BYTE_COUNT, DATA_MARK, LOCK_TYPE, LOCKING_BYTE_COUNT, LOCKS,
    MARKED_LENGTH, OPEN_NAME, UNLOCKS, WRITE_DATA_OFFSET, WRITE_LENGTH,
};
use crate::shape::{block_end, end_inside, has_shape, is_bare, number_inside};
use locks::wire_form::range_size;

// Whether the LOCKING block at a place has just the bytes of the ranges it announces.
fn locking_fits(s: &[u8], at: usize) -> bool
    ensures { result ≡ locking_fits s.now at }
{
    if !has_shape(s, at, 8) {
        return false;
    }
    let kind = wire::byte_at(s, at + LOCK_TYPE);
    let ranges = wire::le16_at(s, at + UNLOCKS) as usize + wire::le16_at(s, at + LOCKS) as usize;
    let bytes = wire::le16_at(s, at + LOCKING_BYTE_COUNT) as usize;
    bytes == ranges * range_size(kind / 16 % 2 == 1)
}

// Whether the READ block at a place has 10 or 12 words and no bytes.
fn read_fits(s: &[u8], at: usize) -> bool
    ensures { result ≡ read_fits s.now at }
{
    if is_bare(s, at, 10) {
        return true;
    }
    is_bare(s, at, 12)
}

// Whether the data of the WRITE block at a place lie inside its bytes.
fn data_inside(s: &[u8], at: usize) -> bool
    requires { at < length s.now }
    ensures { result ≡ data_inside s.now at }
{
    let from = wire::le16_at(s, at + WRITE_DATA_OFFSET) as usize;
    let count = wire::le16_at(s, at + WRITE_LENGTH) as usize;
    let words = wire::byte_at(s, at) as usize;
    if from < at + 3 + 2 * words {
        return false;
    }
    from + count <= block_end(s, at)
}

// Whether the WRITE block at a place has 12 or 14 words, and its data inside it.
fn write_fits(s: &[u8], at: usize) -> bool
    ensures { result ≡ write_fits s.now at }
{
    if has_shape(s, at, 12) {
        return data_inside(s, at);
    }
    if has_shape(s, at, 14) {
        return data_inside(s, at);
    }
    false
}

// Whether the core WRITE block at a place has just a data block, marked 0x01 and as long as its count word says: "a data block
// not marked 0x01 or whose lengths disagree is 2/1" (document 02, CR 3).
fn core_write_fits(s: &[u8], at: usize) -> bool
    ensures { result ≡ core_write_fits s.now at }
{
    if !has_shape(s, at, 5) {
        return false;
    }
    if wire::byte_at(s, at + DATA_MARK) != 1 {
        return false;
    }
    let count = wire::le16_at(s, at + CORE_COUNT);
    if wire::le16_at(s, at + MARKED_LENGTH) != count {
        return false;
    }
    let bytes = wire::le16_at(s, at + CORE_WRITE_BYTE_COUNT) as usize;
    bytes == 3 + count as usize
}

// Whether the bytes are a name without zero bytes, then one zero byte.
fn is_terminated(bytes: &[u8]) -> bool
    ensures { result ≡ terminated bytes.now }
{
    let Some((last, name)) = bytes.split_last() else {
        return false;
    };
    *last == 0 && !name.contains(&0)
}

// Whether the OPEN block at a place has 15 words and just a name: "The byte area is a name of any length, even none, without zero
// bytes, then one zero byte; else 2/1" (document 02, CR 6).
fn open_fits(s: &[u8], at: usize) -> bool
    ensures { result ≡ open_fits s.now at }
{
    if !has_shape(s, at, 15) {
        return false;
    }
    let from = at + OPEN_NAME;
    let to = block_end(s, at);
    is_terminated(&s[from..to])
}

// Whether the block at a place is one of the request's row.
fn row_fits(s: &[u8], request: ServedRequest, at: usize) -> bool
    ensures { result ≡ row_fits s.now (Some request) at }
{
    match request {
        ServedRequest::Locking => locking_fits(s, at),
        ServedRequest::Read => read_fits(s, at),
        ServedRequest::Write => write_fits(s, at),
        ServedRequest::Close => is_bare(s, at, 3),
        ServedRequest::Logoff => is_bare(s, at, 2),
        ServedRequest::TreeDisconnect => is_bare(s, at, 0),
        ServedRequest::ProcessExit => is_bare(s, at, 0),
        ServedRequest::CoreRead => is_bare(s, at, 5),
        ServedRequest::CoreWrite => core_write_fits(s, at),
        ServedRequest::LockByteRange => is_bare(s, at, 5),
        ServedRequest::UnlockByteRange => is_bare(s, at, 5),
        ServedRequest::Open => open_fits(s, at),
    }
}

// The AndX words of a block inside the message: they end the chain, or name a follower at or behind the block's end.
fn judge_link(s: &[u8], command: u8, at: usize) -> Judged
    requires at_in_bounds { at + 5 ≤ length s.now }
    requires at_in_bounds_2 { block_end s.now at ≤ length s.now }
    ensures { result ≡ link_judged s.now command at }
{
    let next = s[at + 1];
    if next == NO_COMMAND {
        return Some(None);
    }
    if !may_follow(command, next) {
        return None;
    }
    let place = number_inside(s, at + 3) as usize;
    if place < end_inside(s, at) {
        return None;
    }
    Some(Some(Follower {
        command: next,
        at: place,
    }))
}

// Whether a block with that command stands at a place of the message, and what follows it.
pub fn judge_block(s: &[u8], command: u8, at: usize) -> Judged
    ensures { result ≡ judged (parse s.now command at) }
{
    let request = request_named(command)?;
    if !row_fits(s, request, at) {
        return None;
    }
    if !is_andx(request) {
        return Some(None);
    }
    judge_link(s, command, at)
}
