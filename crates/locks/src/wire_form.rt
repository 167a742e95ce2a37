// The two wire forms of a lock range, 10 and 20 bytes. The area is a part of the message that starts
// at the block's byte area, or the one range of a core command.

ghost use Rattle.std.specs.Prelude.{◌≡◌, ℕ, ◌+◌, ◌*◌, ◌≤◌, ◌<◌, ◌^◌, length};
ghost use Rattle.wire.specs.LittleEndian.{le32_at};
ghost use Rattle.locks.specs.Wire.{range_size, number_at, range_from, range_at, small_form};
ghost use Rattle.locks.specs.Request.{of_header};

use crate::types::{LockRange, Request};

// How many bytes a range takes.
#[tactic(auto, unfolding(crate::specs::Wire::range_size))]
pub fn range_size(large: bool) -> usize
    ensures { result ≡ range_size large }
{
    if large { 20 } else { 10 }
}

// A range in the 10-byte form: LOCK_BYTE_RANGE and UNLOCK_BYTE_RANGE are a LOCKING of one range (document 02, CR 3).
#[tactic(auto, unfolding(crate::specs::Wire::small_form))]
pub fn small_form(r: LockRange) -> [u8; 10]
    ensures { result ≡ small_form r }
{
    let process = r.process.to_le_bytes();
    let offset = r.offset.to_le_bytes();
    let length = r.length.to_le_bytes();
    [
        process[0], process[1], offset[0], offset[1], offset[2], offset[3], length[0], length[1],
        length[2], length[3],
    ]
}

// A number of 32 bits that stands inside the area.
fn inside32(area: &[u8], at: usize) -> u64
    requires { at + 4 ≤ length area.now }
    ensures { (result ≡ le32_at area.now at) × (result < 2 ^ 32) }
{
    u64::from(u32::from_le_bytes([area[at], area[at + 1], area[at + 2], area[at + 3]]))
}

// A number of 32 bits, or of 64 with its upper half first.
#[tactic(auto, unfolding(crate::specs::Wire::number_at))]
fn number_at(area: &[u8], large: bool, at: usize) -> u64
    requires { at < 2 ^ 32 }
    ensures { result ≡ number_at large area.now at }
{
    let first = u64::from(wire::le32_at(area, at));
    if large {
        4294967296 * first + u64::from(wire::le32_at(area, at + 4))
    } else {
        first
    }
}

// The range at a place, bytes past the end counting as 0.
#[tactic(auto, unfolding(crate::specs::Wire::range_from))]
fn range_past(area: &[u8], large: bool, at: usize) -> LockRange
    requires { at ≤ 2621440 }
    ensures { result ≡ range_from large area.now at }
{
    LockRange {
        process: u32::from(wire::le16_at(area, at)),
        offset: number_at(area, large, at + if large { 4 } else { 2 }),
        length: number_at(area, large, at + if large { 12 } else { 6 }),
    }
}

// The range at a place, inside the area. A twin of `range_past` for speed: it tests no place (see `range_at`).
#[tactic(auto, unfolding(crate::specs::Wire::range_from, crate::specs::Wire::number_at, crate::specs::Wire::range_size))]
fn range_inside(area: &[u8], large: bool, at: usize) -> LockRange
    requires { (at ≤ 2621440) × (at + range_size large ≤ length area.now) }
    ensures { result ≡ range_from large area.now at }
{
    let process = u32::from(wire::le16_at(area, at));
    if large {
        let offset = 4294967296 * inside32(area, at + 4) + inside32(area, at + 8);
        let length = 4294967296 * inside32(area, at + 12) + inside32(area, at + 16);
        return LockRange {
            process,
            offset,
            length,
        };
    }
    let offset = inside32(area, at + 2);
    let length = inside32(area, at + 6);
    LockRange {
        process,
        offset,
        length,
    }
}

// The k-th range of the area, from 0. A request of 814 ranges reads 330,000 of them, all inside: one test for all the bytes of
// a range.
#[tactic(auto, unfolding(crate::specs::Wire::range_at))]
pub(crate) fn range_at(area: &[u8], large: bool, k: usize) -> LockRange
    requires { k < 2 ^ 17 }
    ensures { result ≡ range_at large area.now k }
{
    let size = range_size(large);
    let at = k * size;
    if at + size <= area.len() {
        return range_inside(area, large, at);
    }
    range_past(area, large, at)
}

// The k-th range of a request: its process takes the upper half from the header (document 02, CR 4).
#[tactic(auto, unfolding(crate::specs::Request::of_header))]
pub(crate) fn range_of(area: &[u8], q: Request, k: usize) -> LockRange
    requires { k < 2 ^ 17 }
    ensures { result ≡ of_header q.high (range_at q.large area.now k) }
{
    let r = range_at(area, q.large, k);
    let process = 65536 * (q.high as u32) + r.process;
    LockRange {
        process,
        offset: r.offset,
        length: r.length,
    }
}
