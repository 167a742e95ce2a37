// The commands of the requests served, and what may follow what.

ghost use Rattle.std.specs.Prelude.{◌≡◌, Some};
ghost use Rattle.chain.specs.Parse.{may_follow};
ghost use Rattle.chain.specs.Request.{request_named, is_andx, is_served};

// The commands by their numbers on the wire. They are no enum: the tests of the definitions and of `may_follow`, which is public, go by the
// numbers of any message; `request_named` makes `ServedRequest` of those that are served.
pub const CLOSE: u8 = 0x04;

pub const PROCESS_EXIT: u8 = 0x11;

pub const LOCKING: u8 = 0x24;

pub const READ: u8 = 0x2e;

pub const WRITE: u8 = 0x2f;

pub const TREE_DISCONNECT: u8 = 0x71;

pub const LOGOFF: u8 = 0x74;

pub const CORE_READ: u8 = 0x0a;

pub const CORE_WRITE: u8 = 0x0b;

pub const LOCK_BYTE_RANGE: u8 = 0x0c;

pub const UNLOCK_BYTE_RANGE: u8 = 0x0d;

pub const OPEN: u8 = 0x2d;

// The AndXCommand that ends a chain.
pub const NO_COMMAND: u8 = 0xff;

// The requests served, as the grammar's table has them.
#[derive(Clone, Copy)]
pub enum ServedRequest {
    Locking,
    Read,
    Write,
    Close,
    Logoff,
    TreeDisconnect,
    ProcessExit,
    CoreRead,
    CoreWrite,
    LockByteRange,
    UnlockByteRange,
    Open,
}

// The request that a command's number names, if it is served: the list of the numbers served stands here alone. It is in two halves: LLVM makes one
// match of all twelve a table of 113 places, and then inlines it no longer, which costs every block of a chain some nanoseconds.
pub(crate) fn request_named(command: u8) -> Option<ServedRequest>
    ensures { result ≡ request_named command }
{
    if command < LOCKING {
        match command {
            CLOSE => Some(ServedRequest::Close),
            PROCESS_EXIT => Some(ServedRequest::ProcessExit),
            CORE_READ => Some(ServedRequest::CoreRead),
            CORE_WRITE => Some(ServedRequest::CoreWrite),
            LOCK_BYTE_RANGE => Some(ServedRequest::LockByteRange),
            UNLOCK_BYTE_RANGE => Some(ServedRequest::UnlockByteRange),
            _ => None,
        }
    } else {
        match command {
            LOCKING => Some(ServedRequest::Locking),
            READ => Some(ServedRequest::Read),
            WRITE => Some(ServedRequest::Write),
            LOGOFF => Some(ServedRequest::Logoff),
            TREE_DISCONNECT => Some(ServedRequest::TreeDisconnect),
            OPEN => Some(ServedRequest::Open),
            _ => None,
        }
    }
}

// Whether the request's words begin with AndX: "Words after AndX" in the grammar's table.
pub(crate) fn is_andx(request: ServedRequest) -> bool
    ensures { result ≡ is_andx (Some request) }
{
    matches!(
        request,
        ServedRequest::Locking
            | ServedRequest::Read
            | ServedRequest::Write
            | ServedRequest::Logoff
            | ServedRequest::Open
    )
}

// Whether the command is in the grammar's table: "2/22 header command not served".
pub fn is_served(command: u8) -> bool
    ensures { result ≡ is_served (request_named command) }
{
    request_named(command).is_some()
}

// What may follow what: document 01's column "May be followed by", row by row in its order, last in LOCKING's row the
// two of document 02's CR 3, and a last row of its CR 6: "READ_ANDX may follow (CR 5's eight pairs become nine)". READ, WRITE and OPEN
// are READ_ANDX, WRITE_ANDX and OPEN_ANDX here, CORE_READ and CORE_WRITE CR 3's READ and WRITE. CLOSE, LOGOFF, TREE_DISCONNECT,
// PROCESS_EXIT and the core commands are followed by nothing.
pub fn may_follow(command: u8, next: u8) -> bool
    ensures { result ≡ may_follow command next }
{
    match command {
        LOCKING => next == READ || next == WRITE || next == CORE_READ || next == CORE_WRITE,
        READ => next == CLOSE,
        WRITE => next == WRITE || next == READ || next == CLOSE,
        OPEN => next == READ,
        _ => false,
    }
}
