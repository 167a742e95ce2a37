// The stream's reader and writer as a C program calls them (include/gateway.h): the reader's state is seven words of the host's, any
// values in them, and what a call gives is four more.

ghost use Rattle.std.specs.Prelude.{◌≡◌, Ok};
ghost use Rattle.stream.specs.State.{none_begun};
ghost use Rattle.stream.specs.Writer.{write};
ghost use Rattle.stream.specs.Told.{outcome_event};
ghost use Rattle.boundary.specs.StreamWords.{state_in, words_of, step_words, piece_read, step_after, written_after};

use host::answer::DONE;
use stream::reader::{Whole, read_piece};
use stream::state::{State, start};
use stream::writer::write_message;

// The state that the words hold; they are its words. Not `From`: State is of another crate, and so is an array.
fn state_in(words: &[u64; 7]) -> State
    ensures value { result ≡ state_in words.now }
    ensures words_value { words.now ≡ words_of result }
{
    let w: &[u64] = words;
    State {
        stopped: w[0],
        begun: w[1],
        first: w[2],
        second: w[3],
        third: w[4],
        length: w[5],
        got: w[6],
    }
}

// Words that hold that state.
fn put_state(s: State, words: &mut [u64; 7])
    ensures { words.new ≡ words_of s }
{
    *words = [
        s.stopped, s.begun, s.first, s.second, s.third, s.length, s.got,
    ];
}

// The words of a step without a refusal: bytes taken, whether a message became whole and where, its place and its length.
fn put_step(taken: usize, whole: Option<Whole>, words: &mut [u64; 4])
    ensures { words.new ≡ step_words taken (outcome_event (Ok whole)) }
{
    *words = match whole {
        None => [taken as u64, 0, 0, 0],
        Some(place) => match place {
            Whole::InPiece(at, size) => [taken as u64, 1, at as u64, size as u64],
            Whole::InBuffer(size) => [taken as u64, 2, 0, size as u64],
        },
    };
}

// A reader that has read nothing, whatever the words were.
pub fn gateway_stream_reset(state: &mut [u64; 7])
    ensures { state.new ≡ words_of none_begun }
{
    put_state(start(), state);
}

// A piece of the stream, up to the end of the first message that becomes whole. The step is written on 0 only. Any words are those of
// the state that they hold, so that a state left as it was is words left as they were.
pub fn gateway_stream_read(
    state: &mut [u64; 7],
    buffer: &mut [u8; 8192],
    piece: &[u8],
    step: &mut [u64; 4],
) -> u8
    ensures state_value { state.old ≡ words_of (state_in state.old) }
    ensures value { result ≡ (piece_read state.old buffer.old piece.now).step.number }
    ensures state_after { state.new ≡ words_of (piece_read state.old buffer.old piece.now).step.state }
    ensures buffer_after { buffer.new ≡ (piece_read state.old buffer.old piece.now).buffer }
    ensures step_after { step.new ≡ step_after step.old (piece_read state.old buffer.old piece.now).step }
{
    let before = state_in(state);
    let s = read_piece(before, buffer, piece);
    put_state(s.state, state);
    match s.outcome {
        Ok(whole) => {
            put_step(s.taken, whole, step);
            DONE
        }
        Err(refusal) => refusal.number(),
    }
}

// A message behind its session header at the start of the room; the length of both goes to written.
pub fn gateway_stream_write(message: &[u8], room: &mut [u8], written: &mut usize) -> u8
    ensures value { result ≡ (write message.now room.old).answer.number }
    ensures room_after { room.new ≡ (write message.now room.old).room }
    ensures written_after { written.new ≡ written_after written.old (write message.now room.old).answer }
{
    match write_message(message, room) {
        Ok(length) => {
            *written = length;
            DONE
        }
        Err(refusal) => refusal.number(),
    }
}
