// The reader's state: what is left of the stream that was read, in seven words of the host's. The bytes of a begun message
// are in the buffer that the host lends.

ghost use Rattle.std.specs.Prelude.{◌≡◌};
ghost use Rattle.stream.specs.Told.{number_of};
ghost use Rattle.stream.specs.State.{none_begun, header_words, header_begun, message_begun, stopped_by, no_header, no_message, byte_fits, header_fits, message_fits, is_left};

use crate::header::StreamRefusal;
use wire::byte_at;

// `stopped`: 0, or the number that stopped the reader. `begun`: how many bytes of a header are in, and `first` to `third`
// those bytes. `length`: that of a begun message, and `got` how many of its bytes are in the buffer.
// They stay words with 0 for nothing, since C lends them (`gateway_stream_read`).
#[derive(Clone, Copy)]
pub struct State {
    pub stopped: u64,
    pub begun: u64,
    pub first: u64,
    pub second: u64,
    pub third: u64,
    pub length: u64,
    pub got: u64,
}

// The state of a reader that has read nothing; a reset gives it too.
pub fn start() -> State
    ensures { result ≡ none_begun }
{
    State {
        stopped: 0,
        begun: 0,
        first: 0,
        second: 0,
        third: 0,
        length: 0,
        got: 0,
    }
}

// The state of a header of which so many bytes are in, 0 where none is.
pub(crate) fn header_of(begun: u64, first: u8, second: u8, third: u8) -> State
    ensures { result ≡ header_words begun first second third }
{
    State {
        begun,
        first: u64::from(first),
        second: u64::from(second),
        third: u64::from(third),
        ..start()
    }
}

// The state of a header of which these bytes are in, fewer than four.
pub(crate) fn header_begun(s: &[u8]) -> State
    ensures { result ≡ header_begun s.now }
{
    header_of(s.len() as u64, byte_at(s, 0), byte_at(s, 1), byte_at(s, 2))
}

// The state of a message of which so many bytes are in.
pub(crate) fn message_begun(length: usize, got: usize) -> State
    ensures { result ≡ message_begun length got }
{
    State {
        length: length as u64,
        got: got as u64,
        ..start()
    }
}

// The state of a reader that a header stopped.
pub(crate) fn stopped_by(refusal: StreamRefusal) -> State
    ensures { result ≡ stopped_by (number_of refusal) }
{
    State {
        stopped: u64::from(refusal.number()),
        ..start()
    }
}

fn no_header(s: State) -> bool
    ensures { result ≡ no_header s }
{
    (s.begun == 0) & ((s.first == 0) & ((s.second == 0) & (s.third == 0)))
}

fn no_message(s: State) -> bool
    ensures { result ≡ no_message s }
{
    (s.length == 0) & (s.got == 0)
}

// A byte where so many are in; 0 where it is not in yet.
fn byte_fits(place: u64, count: u64, b: u64) -> bool
    ensures { result ≡ byte_fits place count b }
{
    if place < count { b < 256 } else { b == 0 }
}

fn header_fits(s: State) -> bool
    ensures { result ≡ header_fits s }
{
    let first = byte_fits(0, s.begun, s.first);
    let second = byte_fits(1, s.begun, s.second);
    let third = byte_fits(2, s.begun, s.third);
    (s.begun <= 3) & (first & (second & third))
}

fn message_fits(s: State) -> bool
    ensures { result ≡ message_fits s }
{
    (s.length <= 8192) & (s.got < s.length)
}

// Whether some stream leaves the state.
pub fn is_left(s: State) -> bool
    ensures { result ≡ is_left s }
{
    if s.stopped != 0 {
        return (s.stopped <= 4) & (no_header(s) & no_message(s));
    }
    if s.length == 0 {
        return header_fits(s) & (s.got == 0);
    }
    no_header(s) & message_fits(s)
}
