// What is asked of the lock list, and what comes of it.

use records::Lock;

// A range of a LOCKING request; a lock's process is the range's. Process, offset and length stand in `Ask` and `records::Lock` once
// more and not as a field of this type: the definitions of specs/ (`owns`, `in_way`, `ask_of`, `lock_of`) and the theorems over them
// name them there.
#[derive(Clone, Copy)]
pub struct LockRange {
    pub process: u32,
    pub offset: u64,
    pub length: u64,
}

// What a walk over the list is for: a lock to be granted, shared or not, a read, a write, or an
// unlock.
#[derive(Clone, Copy)]
pub enum Purpose {
    Grant(bool),
    Read,
    Write,
    Release,
}

// What is asked of the list: a range, and who asks for what.
#[derive(Clone, Copy)]
pub struct Ask {
    pub fid: u16,
    pub process: u32,
    pub offset: u64,
    pub length: u64,
    pub purpose: Purpose,
}

// A LOCKING request without its ranges: the upper half of the asker's process, type bits 0x01 and
// 0x10, and how many ranges to unlock and to lock.
#[derive(Clone, Copy)]
pub struct Request {
    pub fid: u16,
    pub high: u16,
    pub shared: bool,
    pub large: bool,
    pub unlocks: u16,
    pub locks: u16,
}

// The first lock in the way of what is asked, and its place, from 0, in the list as it then stands (document 02,
// CR 2).
#[derive(Clone, Copy)]
pub struct Holder {
    pub lock: Lock,
    pub place: usize,
}

// Why a LOCKING request is refused. A conflict names the holder.
#[derive(Clone, Copy)]
pub enum LockRefusal {
    Malformed,
    NoSuchLock,
    PassesEnd,
    Conflict(Holder),
    NoRecord,
}

// How a LOCKING request ends, and the lock list after it: the type of what `specs/Request.antt` says of one.
#[derive(Clone, Copy)]
pub struct Locking {
    pub outcome: Result<(), LockRefusal>,
    pub locks: [Lock; 128],
    pub count: usize,
}
