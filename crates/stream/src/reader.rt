// The reader: a piece of the stream at a time, one message at most to a call.

ghost use Rattle.std.specs.Prelude.{◌≡◌, true, ◌++◌, ◌+◌, ◌≤◌, length, drop, get_or};
ghost use Rattle.lists.specs.Put.{put};
ghost use Rattle.stream.specs.Stream.{judge, begins};
ghost use Rattle.stream.specs.State.{begun_bytes, header_fits};
ghost use Rattle.stream.specs.Reader.{step_of, read};
ghost use Rattle.stream.specs.Seen.{seen_of, gathered};
ghost use Rattle.stream.specs.Told.{number_of, judged_of, outcome_number, outcome_event, step_told, seen_told};

use crate::header::{Header, StreamRefusal, judge};
use crate::state::{State, header_begun, header_of, is_left, message_begun, start, stopped_by};
use wire::byte_at;
use wire::fill::lay;

// Where a message stands that became whole: in the piece from a place on and of a length, or in the buffer from 0 on and of a length.
#[derive(Clone, Copy)]
pub enum Whole {
    InPiece(usize, usize),
    InBuffer(usize),
}

// What a call gives: the message that became whole, if one did, or why it refuses; how many bytes of the piece it took; and the state for
// the next call. Without a refusal and a message all of the piece was taken and more is wanted.
#[derive(Clone, Copy)]
pub struct Step {
    pub outcome: Result<Option<Whole>, StreamRefusal>,
    pub taken: usize,
    pub state: State,
}

// The state of a begun header; or a header that stops the reader or that is a message's, with the place behind it. No Result: what stops the reader
// goes with a place here too, and the three are handed on alike.
#[derive(Clone, Copy)]
enum Seen {
    Short(State),
    Bad(StreamRefusal, usize),
    Body(usize, usize),
}

fn answer(outcome: Result<Option<Whole>, StreamRefusal>, taken: usize, state: State) -> Step
    ensures { step_told result ≡ step_of (outcome_number outcome) taken (outcome_event outcome) state }
{
    Step {
        outcome,
        taken,
        state,
    }
}

// The refusal of that number, of those that stop the reader.
fn refusal_numbered(n: u64) -> StreamRefusal
    requires above { 1 ≤ n }
    requires limit { n ≤ 4 }
    ensures { number_of result ≡ n }
{
    match n {
        1 => StreamRefusal::UnknownType,
        2 => StreamRefusal::ReservedFlags,
        3 => StreamRefusal::LongKeepAlive,
        _ => StreamRefusal::LongMessage,
    }
}

// The header at a place of the piece.
fn judge_at(piece: &[u8], at: usize) -> Result<Header, StreamRefusal>
    requires { at + 4 ≤ length piece.now }
    ensures { judged_of result ≡ judge (get_or piece.now at 0) (get_or piece.now (at + 1) 0) (get_or piece.now (at + 2) 0) (get_or piece.now (at + 3) 0) }
{
    judge(piece[at], piece[at + 1], piece[at + 2], piece[at + 3])
}

// From a place of the piece on, keep-alives passed over: by headers of four bytes, as long as they are keep-alives, so it is no `for`.
fn pass(piece: &[u8], from: usize) -> Seen
    requires { from ≤ length piece.now }
    ensures { seen_told result ≡ seen_of (begins (drop from piece.now)) (length piece.now) }
{
    let mut at = from;
    while 4 <= piece.len() - at {
        match judge_at(piece, at) {
            Err(refusal) => return Seen::Bad(refusal, at + 4),
            Ok(header) => {
                if let Header::Message(size) = header {
                    return Seen::Body(size, at + 4);
                }
            }
        }
        at += 4;
    }
    Seen::Short(header_begun(&piece[at..]))
}

// The byte at a place of the header that the bytes begun and those of the piece make.
fn header_byte(s: State, piece: &[u8], place: u64) -> u8
    requires { header_fits s ≡ true }
    ensures { result ≡ get_or (begun_bytes s ++ piece.now) place 0 }
{
    if s.begun <= place {
        return byte_at(piece, (place - s.begun) as usize);
    }
    if place == 0 {
        return s.first as u8;
    }
    if place == 1 {
        return s.second as u8;
    }
    s.third as u8
}

// The header that the bytes begun and those of the piece make, and those behind it while it is a keep-alive.
fn first_header(s: State, piece: &[u8]) -> Seen
    requires { header_fits s ≡ true }
    ensures { seen_told result ≡ seen_of (begins (begun_bytes s ++ piece.now)) (length piece.now) }
{
    let missing = (4 - s.begun) as usize;
    let first = header_byte(s, piece, 0);
    let second = header_byte(s, piece, 1);
    let third = header_byte(s, piece, 2);
    if piece.len() < missing {
        let begun = s.begun + piece.len() as u64;
        return Seen::Short(header_of(begun, first, second, third));
    }
    match judge(first, second, third, header_byte(s, piece, 3)) {
        Err(refusal) => Seen::Bad(refusal, missing),
        Ok(header) => match header {
            Header::Message(size) => Seen::Body(size, missing),
            Header::KeepAlive => pass(piece, missing),
        },
    }
}

// Bytes of a message of that length, put behind those that are in the buffer.
fn add_bytes(part: &[u8], buffer: &mut [u8], got: usize, size: usize)
    requires part_bound { got + length part.now ≤ size }
    requires size_in_bounds { size ≤ length buffer.old }
    ensures { buffer.new ≡ put buffer.old got part.now }
{
    lay(part, &mut buffer[got..size]);
}

// A message of which some bytes are in the buffer: its next bytes stand in the piece from a place on.
fn gather(size: usize, got: usize, buffer: &mut [u8], piece: &[u8], at: usize) -> Step
    requires size_in_bounds { size ≤ length buffer.old }
    requires got_le_size { got ≤ size }
    requires at_in_bounds { at ≤ length piece.now }
    ensures value { step_told result ≡ (gathered size got buffer.old piece.now at).step }
    ensures buffer_after { buffer.new ≡ (gathered size got buffer.old piece.now at).buffer }
{
    let missing = size - got;
    let there = piece.len() - at;
    if there < missing {
        add_bytes(&piece[at..], buffer, got, size);
        return answer(Ok(None), piece.len(), message_begun(size, got + there));
    }
    let end = at + missing;
    if got == 0 {
        return answer(Ok(Some(Whole::InPiece(at, size))), end, start());
    }
    add_bytes(&piece[at..end], buffer, got, size);
    answer(Ok(Some(Whole::InBuffer(size))), end, start())
}

// Takes a piece of the stream up to the end of the first message that becomes whole, or all of it. The state and the buffer are
// those that the last call left, or `start` and any bytes.
pub fn read_piece(state: State, buffer: &mut [u8; 8192], piece: &[u8]) -> Step
    ensures value { step_told result ≡ (read state buffer.old piece.now).step }
    ensures buffer_after { buffer.new ≡ (read state buffer.old piece.now).buffer }
{
    if !is_left(state) {
        return answer(Err(StreamRefusal::NotLeft), 0, state);
    }
    let stopped = state.stopped;
    if stopped != 0 {
        return answer(Err(refusal_numbered(stopped)), 0, state);
    }
    if state.length != 0 {
        return gather(state.length as usize, state.got as usize, buffer, piece, 0);
    }
    let seen = first_header(state, piece);
    match seen {
        Seen::Short(next) => answer(Ok(None), piece.len(), next),
        Seen::Bad(refusal, at) => answer(Err(refusal), at, stopped_by(refusal)),
        Seen::Body(size, at) => gather(size, 0, buffer, piece, at),
    }
}
