// A piece of the stream: read, and the message that became whole, if one did, taken and answered.

use crate::show::print_message;
use digest::digest_bytes;
use host::file::load_file;
use host::names::set_catalogue;
use host::open::add_open;
use sample::names::catalogue_words;
use sample::{CONNECTION, one_terminal};
use server::call::take_message;
use std::io;
use stream::header::StreamRefusal;
use stream::reader::{Whole, read_piece};
use stream::state::State;
use stream::writer::write_message;

// What a piece gave: why the reader refused, if it did, the bytes taken and the state for the next.
#[derive(Clone, Copy)]
pub(crate) struct Played {
    pub refusal: Option<StreamRefusal>,
    pub taken: usize,
    pub state: State,
}

// Three names, the words of a catalogue as a byte each: for a name its length, 12 bytes of text and its file. File 0 is `REVOKED.TXT`,
// file 1 `notes` and file 2, which is not loaded, `Empty`.
fn three_names() -> [u64; 225] {
    let names =
        b"\x03\x0bREVOKED.TXT\x00\x00\x05notes\x00\x00\x00\x00\x00\x00\x00\x01\x05Empty\x00\x00\x00\x00\x00\x00\x00\x02";
    catalogue_words(names, 0)
}

// The small gateway, with a second open of file 0, of process 8, one of file 1 for reading, and names to open files by.
pub(crate) fn set_up(words: &mut [u64; 1605], memory: &mut [u8; 65536]) {
    one_terminal(words, memory);
    let _ = load_file(words, 1, b"0017 0042 0311 0768", memory);
    let _ = add_open(words, 1, 1, 8, 0, 2);
    let _ = add_open(words, 1, 1, 7, 1, 0);
    let given = three_names();
    let _ = set_catalogue(words, &given);
}

// The digest of a reply behind its header.
fn frame_digest(reply: &[u8]) -> u64 {
    let mut frame = [0u8; 12296];
    let written = write_message(reply, &mut frame).unwrap_or(0);
    let size = written.min(12296);
    digest_bytes(0, &frame[..size])
}

// A message handed out: taken, its reply written, and its line printed.
fn play_message(
    rt: &impl Print,
    message: &[u8],
    words: &mut [u64; 1605],
    memory: &mut [u8; 65536],
) -> io::Result<()> {
    let mut room = [0u8; 12292];
    let taken = take_message(CONNECTION, message, words, memory, &mut room);
    match taken {
        Ok(taken) => {
            let written = taken.length;
            let size = written.min(12292);
            let digest = frame_digest(&room[..size]);
            print_message(rt, message.len(), 0, written, digest as usize)
        }
        Err(why) => print_message(rt, message.len(), why.number(), 0, 0),
    }
}

// A message that stands from a place on, in the piece or in the buffer.
fn play_at(
    rt: &impl Print,
    bytes: &[u8],
    at: usize,
    size: usize,
    words: &mut [u64; 1605],
    memory: &mut [u8; 65536],
) -> io::Result<()> {
    let from = at.min(bytes.len());
    let to = from + size.min(bytes.len() - from);
    play_message(rt, &bytes[from..to], words, memory)
}

pub(crate) fn play_piece(
    rt: &impl Print,
    state: State,
    piece: &[u8],
    buffer: &mut [u8; 8192],
    words: &mut [u64; 1605],
    memory: &mut [u8; 65536],
) -> io::Result<Played> {
    let step = read_piece(state, buffer, piece);
    let refusal = match step.outcome {
        Ok(whole) => {
            if let Some(place) = whole {
                match place {
                    Whole::InPiece(at, size) => play_at(rt, piece, at, size, words, memory)?,
                    Whole::InBuffer(size) => play_at(rt, buffer, 0, size, words, memory)?,
                }
            }
            None
        }
        Err(refusal) => Some(refusal),
    };
    Ok(Played {
        refusal,
        taken: step.taken,
        state: step.state,
    })
}
