// The header's places (document 01, "Header"; specs/Layout.antt and message/specs/Caller.antt have the same), and row 1 of its "What a call returns": which messages
// are dropped.

ghost use Rattle.std.specs.Prelude.{◌≡◌};
ghost use Rattle.chain.specs.Header.{starts_smb, dropped};

pub const COMMAND: usize = 4;

const FLAGS: usize = 9;

pub const PID_HIGH: usize = 12;

pub const TID: usize = 24;

pub const PID_LOW: usize = 26;

pub const UID: usize = 28;

// Where the header ends and the first block stands.
pub const FIRST: usize = 32;

// The shortest message has a block of no words and no bytes.
pub const SHORTEST: usize = 35;

const LONGEST: usize = 8192;

// Whether the message starts FF 53 4D 42.
fn starts_smb(s: &[u8]) -> bool
    ensures { result ≡ starts_smb s.now }
{
    if wire::byte_at(s, 0) != 0xff {
        return false;
    }
    if wire::byte_at(s, 1) != 0x53 {
        return false;
    }
    if wire::byte_at(s, 2) != 0x4d {
        return false;
    }
    wire::byte_at(s, 3) == 0x42
}

// Whether the message is dropped: too short, too long, no SMB message, or a reply.
pub fn is_dropped(s: &[u8]) -> bool
    ensures { result ≡ dropped s.now }
{
    if s.len() < SHORTEST {
        return true;
    }
    if LONGEST < s.len() {
        return true;
    }
    if !starts_smb(s) {
        return true;
    }
    128 <= wire::byte_at(s, FLAGS)
}
