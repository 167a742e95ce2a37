// One block that was judged to stand at its place, taken apart by its command.

ghost use Rattle.std.specs.Prelude.{◌≡◌, ◌+◌, ◌≤◌, ◌<◌, true, length, Some as Whole};
ghost use Rattle.wire.specs.LittleEndian.{le32_at};
ghost use Rattle.chain.specs.Parse.{wide_offset, core_read_at, range_fields, parse};
ghost use Rattle.chain.specs.Request.{request_named, is_andx};
ghost use Rattle.chain.specs.Rows.{HasBody, next_at};
ghost use Rattle.chain.specs.Judged.{is_whole};
ghost use Rattle.chain.specs.Layout.{LOCKING, READ, WRITE, CORE-WRITE, OPEN};

use crate::block::{
    Block, Body, LockingFields, Next, OpenFields, RangeFields, ReadFields, WriteFields,
};
use crate::command::{ServedRequest, is_andx, request_named};
use crate::place::{
    ACCESS_MODE, CORE_COUNT, CORE_OFFSET, FID, FIRST_FID, LOCK_TYPE, LOCKS, MARKED_DATA, OFFSET,
    OPEN_FLAGS, OPEN_MODE, RANGE_LENGTH, RANGE_OFFSET, READ_MAX, READ_OFFSET_HIGH, UNLOCKS,
    WRITE_DATA_OFFSET, WRITE_LENGTH, WRITE_OFFSET_HIGH,
};
use crate::shape::{end_inside, link_at};

fn locking_body(s: &[u8], at: usize) -> Body
    requires { at < length s.now }
    ensures { HasBody s.now LOCKING at result }
{
    let fid = wire::le16_at(s, at + FID);
    let kind = wire::byte_at(s, at + LOCK_TYPE);
    let unlocks = wire::le16_at(s, at + UNLOCKS);
    let locks = wire::le16_at(s, at + LOCKS);
    Body::Locking(LockingFields {
        fid,
        kind,
        unlocks,
        locks,
    })
}

// An offset of 32 bits at one place, with its upper half at another where the block has it.
fn offset_at(s: &[u8], low: usize, high: usize, wide: bool) -> u64
    ensures { result ≡ wide_offset (le32_at s.now low) (le32_at s.now high) wide }
{
    let first = wire::le32_at(s, low) as u64;
    if wide {
        4294967296 * (wire::le32_at(s, high) as u64) + first
    } else {
        first
    }
}

fn read_body(s: &[u8], at: usize) -> Body
    requires { at < length s.now }
    ensures { HasBody s.now READ at result }
{
    let fid = wire::le16_at(s, at + FID);
    let offset = offset_at(
        s,
        at + OFFSET,
        at + READ_OFFSET_HIGH,
        wire::byte_at(s, at) == 12,
    );
    let max = wire::le16_at(s, at + READ_MAX);
    Body::Read(ReadFields { fid, offset, max })
}

fn write_body(s: &[u8], at: usize) -> Body
    requires { at < length s.now }
    ensures { HasBody s.now WRITE at result }
{
    let fid = wire::le16_at(s, at + FID);
    let offset = offset_at(
        s,
        at + OFFSET,
        at + WRITE_OFFSET_HIGH,
        wire::byte_at(s, at) == 14,
    );
    let count = wire::le16_at(s, at + WRITE_LENGTH);
    let from = wire::le16_at(s, at + WRITE_DATA_OFFSET) as usize;
    Body::Write(WriteFields {
        fid,
        offset,
        count,
        from,
    })
}

// "with 32-bit offsets".
fn core_read_body(s: &[u8], at: usize) -> Body
    requires { at < length s.now }
    ensures { result ≡ core_read_at s.now at }
{
    let fid = wire::le16_at(s, at + FIRST_FID);
    let offset = wire::le32_at(s, at + CORE_OFFSET) as u64;
    let max = wire::le16_at(s, at + CORE_COUNT);
    Body::CoreRead(ReadFields { fid, offset, max })
}

// A block that was judged to stand there has 5 words: its data stand where `MARKED_DATA` says.
fn core_write_body(s: &[u8], at: usize) -> Body
    requires { at < length s.now }
    ensures { HasBody s.now CORE-WRITE at result }
{
    let fid = wire::le16_at(s, at + FIRST_FID);
    let offset = wire::le32_at(s, at + CORE_OFFSET) as u64;
    let count = wire::le16_at(s, at + CORE_COUNT);
    let from = at + MARKED_DATA;
    Body::CoreWrite(WriteFields {
        fid,
        offset,
        count,
        from,
    })
}

// The one range of a LOCK_BYTE_RANGE or UNLOCK_BYTE_RANGE.
fn range_fields(s: &[u8], at: usize) -> RangeFields
    requires { at < length s.now }
    ensures { result ≡ range_fields s.now at }
{
    let fid = wire::le16_at(s, at + FIRST_FID);
    let offset = wire::le32_at(s, at + RANGE_OFFSET) as u64;
    let length = wire::le32_at(s, at + RANGE_LENGTH) as u64;
    RangeFields {
        fid,
        offset,
        length,
    }
}

// Of Flags bit 0 counts, of AccessMode bits 0 to 2 and 4 to 6: "Other AccessMode bits are ignored" (document 02, CR 6).
fn open_body(s: &[u8], at: usize) -> Body
    requires { at < length s.now }
    ensures { HasBody s.now OPEN at result }
{
    let full = wire::byte_at(s, at + OPEN_FLAGS) % 2 == 1;
    let codes = wire::byte_at(s, at + ACCESS_MODE);
    let access = codes % 8;
    let sharing = codes / 16 % 8;
    let mode = wire::le16_at(s, at + OPEN_MODE);
    Body::Open(OpenFields {
        full,
        access,
        sharing,
        mode,
    })
}

// The fields of a block by its command. What is no request served has no block, so it may have any.
fn body_at(s: &[u8], command: u8, at: usize) -> Body
    requires { at < length s.now }
    ensures { HasBody s.now command at result }
{
    let Some(request) = request_named(command) else {
        return Body::ProcessExit;
    };
    match request {
        ServedRequest::Locking => locking_body(s, at),
        ServedRequest::Read => read_body(s, at),
        ServedRequest::Write => write_body(s, at),
        ServedRequest::Close => Body::Close(wire::le16_at(s, at + FIRST_FID)),
        ServedRequest::Logoff => Body::Logoff,
        ServedRequest::TreeDisconnect => Body::TreeDisconnect,
        ServedRequest::ProcessExit => Body::ProcessExit,
        ServedRequest::CoreRead => core_read_body(s, at),
        ServedRequest::CoreWrite => core_write_body(s, at),
        ServedRequest::LockByteRange => Body::LockByteRange(range_fields(s, at)),
        ServedRequest::UnlockByteRange => Body::UnlockByteRange(range_fields(s, at)),
        ServedRequest::Open => open_body(s, at),
    }
}

// What follows a block: what its AndX words name, or nothing where it has none.
fn next_at(s: &[u8], command: u8, at: usize) -> Next
    requires { is_andx (request_named command) ≡ true → at + 5 ≤ length s.now }
    ensures { result ≡ next_at s.now command at }
{
    let request = request_named(command)?;
    if is_andx(request) {
        return link_at(s, at);
    }
    None
}

// The block with that command at a place where it was judged to stand, taken apart.
pub fn fields_at(s: &[u8], command: u8, at: usize) -> Block
    requires { is_whole (parse s.now command at) ≡ true }
    ensures { Whole result ≡ parse s.now command at }
{
    let body = body_at(s, command, at);
    let next = next_at(s, command, at);
    let length = end_inside(s, at) - at;
    Block {
        command,
        at,
        length,
        body,
        next,
    }
}
