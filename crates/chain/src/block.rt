// A block of a chain, taken apart.

// What a LOCKING block asks: its FID, its lock type, and how many ranges to unlock and to lock.
#[derive(Clone, Copy)]
pub struct LockingFields {
    pub fid: u16,
    pub kind: u8,
    pub unlocks: u16,
    pub locks: u16,
}

// What a READ block asks.
#[derive(Clone, Copy)]
pub struct ReadFields {
    pub fid: u16,
    pub offset: u64,
    pub max: u16,
}

// What a WRITE block asks: `count` bytes of the message, from place `from` on, go to the offset. A core WRITE of
// count 0 sets the file's size to the offset.
#[derive(Clone, Copy)]
pub struct WriteFields {
    pub fid: u16,
    pub offset: u64,
    pub count: u16,
    pub from: usize,
}

// What a LOCK_BYTE_RANGE or UNLOCK_BYTE_RANGE block asks: one range, of the header's process. Its numbers are as wide as those of the
// other blocks, so that the fields of all bodies lie in the same places: narrower ones cost every block of a chain some nanoseconds.
#[derive(Clone, Copy)]
pub struct RangeFields {
    pub fid: u16,
    pub offset: u64,
    pub length: u64,
}

// What an OPEN block asks (document 02, CR 6): OpenMode, the whole word; the access and the sharing code of AccessMode, whose other bits
// are ignored; and whether the reply is to tell of the file ("zero after the FID with the block's Flags bit 0 clear"). The name stays
// in the message. The word is the first, where the other blocks have their FID.
#[derive(Clone, Copy)]
pub struct OpenFields {
    pub mode: u16,
    pub access: u8,
    pub sharing: u8,
    pub full: bool,
}

// A block by its command. A core READ or WRITE has the fields of its AndX counterpart (document 02, CR 3).
#[derive(Clone, Copy)]
pub enum Body {
    Locking(LockingFields),
    Read(ReadFields),
    Write(WriteFields),
    Close(u16),
    Logoff,
    TreeDisconnect,
    ProcessExit,
    CoreRead(ReadFields),
    CoreWrite(WriteFields),
    LockByteRange(RangeFields),
    UnlockByteRange(RangeFields),
    Open(OpenFields),
}

// A block that follows: its command, and its place from the header's start.
#[derive(Clone, Copy)]
pub struct Follower {
    pub command: u8,
    pub at: usize,
}

// What follows a block, if anything does.
pub type Next = Option<Follower>;

// A block: its command, its place from the header's start, its length, its fields and what follows.
#[derive(Clone, Copy)]
pub struct Block {
    pub command: u8,
    pub at: usize,
    pub length: usize,
    pub body: Body,
    pub next: Next,
}

// The answer for one block: "A block's reading either yields the block or ends the chain's reading at
// once with 2/1." The code judges a block first, and takes it apart after: what follows a block that stands there, if one does.
pub type Judged = Option<Next>;
