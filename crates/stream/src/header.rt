// The session header (RFC 1002, 4.3.1): type, flags, and the length, high byte first.

ghost use Rattle.std.specs.Prelude.{◌≡◌};
ghost use Rattle.stream.specs.Stream.{length_of, known, judge};
ghost use Rattle.stream.specs.Told.{number_of, judged_of};

// "Type 0x00 carries a message; 0x85 is a keep-alive, passed over."
// Bytes of the wire, where any may stand: no enum.
pub const MESSAGE: u8 = 0x00;

pub const KEEP_ALIVE: u8 = 0x85;

// "a length above 8,192" is refused.
pub const LONGEST_READ: usize = 8192;

// What a header says: a keep-alive, or a message of that length.
#[derive(Clone, Copy)]
pub enum Header {
    KeepAlive,
    Message(usize),
}

// Why the reader refuses: a header of another type, with reserved flag bits, of a keep-alive with length or of a message that is too long,
// each of which stops it; or a state that no stream leaves.
#[derive(Clone, Copy)]
pub enum StreamRefusal {
    UnknownType,
    ReservedFlags,
    LongKeepAlive,
    LongMessage,
    NotLeft,
}

impl StreamRefusal {
    // Its number, by which C knows it.
    pub fn number(self) -> u8
        ensures { result ≡ number_of self }
    {
        match self {
            StreamRefusal::UnknownType => 1,
            StreamRefusal::ReservedFlags => 2,
            StreamRefusal::LongKeepAlive => 3,
            StreamRefusal::LongMessage => 4,
            StreamRefusal::NotLeft => 5,
        }
    }
}

// The length, of 17 bits: the lowest bit of the flags is its highest.
fn length_of(flags: u8, high: u8, low: u8) -> usize
    ensures { result ≡ length_of flags high low }
{
    usize::from(flags % 2) * 65536 + usize::from(high) * 256 + usize::from(low)
}

#[tactic(auto, unfolding(crate::specs::Stream::known))]
fn is_known(kind: u8) -> bool
    ensures { result ≡ known kind }
{
    kind == MESSAGE || kind == KEEP_ALIVE
}

// A header whose four bytes are in: the refusals in their order.
pub fn judge(kind: u8, flags: u8, high: u8, low: u8) -> Result<Header, StreamRefusal>
    ensures { judged_of result ≡ judge kind flags high low }
{
    if !is_known(kind) {
        return Err(StreamRefusal::UnknownType);
    }
    if 1 < flags {
        return Err(StreamRefusal::ReservedFlags);
    }
    let length = length_of(flags, high, low);
    if kind == KEEP_ALIVE {
        if length != 0 {
            return Err(StreamRefusal::LongKeepAlive);
        }
        return Ok(Header::KeepAlive);
    }
    if LONGEST_READ < length {
        return Err(StreamRefusal::LongMessage);
    }
    Ok(Header::Message(length))
}
