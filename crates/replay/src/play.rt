// One call of a history. It begins with its kind; numbers are little-endian:
//   1 add a session: connection 4
//   2 add a tree: UID 2, right 1
//   3 add an open: UID 2, TID 2, process 4, file 1, access 1
//   4 load a file: file 1, length 2, the bytes
//   5 drop a connection: connection 4
//   6 take a message: connection 4, length 2, the bytes
//   7 set the catalogue: its 225 words, each as 1
//   8 ask whether the file of an open is unchanged: FID 2
//   9, 10, 11 end a session, a tree, an open: UID, TID, FID 2
// Any other byte is passed over. What stands behind the end reads as 0, and bytes are cut there.

ghost use Rattle.std.specs.Prelude.{◌≡◌, ◌≤◌, ◌<◌, length};

use crate::line::put_line;
use digest::state_digest;
use host::answer::{Given, number_of};
use host::connection::drop_connection;
use host::ending::{One, end_one};
use host::file::load_file;
use host::names::set_catalogue;
use host::open::add_open;
use host::session::add_session;
use host::tree::add_tree;
use host::unchanged::ask_unchanged;
use sample::names::catalogue_words;
use server::call::take_message;
use wire::{byte_at, le16_at, le32_at};

// What a call of a history is.
#[derive(Clone, Copy)]
enum CallKind {
    AddSession,
    AddTree,
    AddOpen,
    LoadFile,
    DropConnection,
    TakeMessage,
    SetCatalogue,
    AskUnchanged,
    EndSession,
    EndTree,
    EndOpen,
}

// The kind of a call by its first byte.
fn kind_of(first: u8) -> Option<CallKind> {
    match first {
        1 => Some(CallKind::AddSession),
        2 => Some(CallKind::AddTree),
        3 => Some(CallKind::AddOpen),
        4 => Some(CallKind::LoadFile),
        5 => Some(CallKind::DropConnection),
        6 => Some(CallKind::TakeMessage),
        7 => Some(CallKind::SetCatalogue),
        8 => Some(CallKind::AskUnchanged),
        9 => Some(CallKind::EndSession),
        10 => Some(CallKind::EndTree),
        11 => Some(CallKind::EndOpen),
        _ => None,
    }
}

// Where the next call stands, and how long this one's line is. What it left is in the words and the file memory.
#[derive(Clone, Copy)]
pub(crate) struct Step {
    pub next: usize,
    pub length: usize,
}

// The words, the memory, the room and the text are lent apart, as a C host lends them.

// A host call carried out, and its line.
fn host_step(given: Given, next: usize, words: &[u64], memory: &[u8], text: &mut [u8]) -> Step
    ensures { (result.next ≡ next) × (result.length ≤ length text.new) }
{
    let digest = state_digest(words, memory) as usize;
    let length = put_line(
        text,
        number_of(given),
        given.unwrap_or(0) as usize,
        b"",
        digest,
        None,
    );
    Step { next, length }
}

// A load: the file's number, then its bytes.
fn load_step(
    s: &[u8],
    at: usize,
    words: &mut [u64; 1605],
    memory: &mut [u8],
    text: &mut [u8],
) -> Step
    requires at_in_bounds { at < length s.now }
    requires s_len_bound { length s.now ≤ 262144 }
    ensures { (at < result.next) × (result.length ≤ length text.new) }
{
    let next = at + 4 + le16_at(s, at + 2) as usize;
    let to = next.min(s.len());
    let from = (at + 4).min(to);
    let o = load_file(words, byte_at(s, at + 1), &s[from..to], memory);
    host_step(o, next, words, memory, text)
}

// A message: its connection, then its bytes.
fn message_step(
    s: &[u8],
    at: usize,
    words: &mut [u64; 1605],
    memory: &mut [u8],
    room: &mut [u8],
    text: &mut [u8],
) -> Step
    requires at_in_bounds { at < length s.now }
    requires s_len_bound { length s.now ≤ 262144 }
    ensures { (at < result.next) × (result.length ≤ length text.new) }
{
    let next = at + 7 + le16_at(s, at + 5) as usize;
    let to = next.min(s.len());
    let from = (at + 7).min(to);
    let taken = take_message(le32_at(s, at + 1), &s[from..to], words, memory, room);
    let (number, written, who) = match taken {
        Ok(taken) => (0, taken.length, taken.holder),
        Err(why) => (why.number(), 0, None),
    };
    let digest = state_digest(words, memory) as usize;
    let size = written.min(room.len());
    let length = put_line(text, number, written, &room[..size], digest, who);
    Step { next, length }
}

// An open: UID, TID, process, file and access.
fn open_step(s: &[u8], at: usize, words: &mut [u64; 1605], memory: &[u8], text: &mut [u8]) -> Step
    requires at_in_bounds { at < length s.now }
    requires s_len_bound { length s.now ≤ 262144 }
    ensures { (at < result.next) × (result.length ≤ length text.new) }
{
    let uid = le16_at(s, at + 1);
    let tid = le16_at(s, at + 3);
    let process = le32_at(s, at + 5);
    let o = add_open(
        words,
        uid,
        tid,
        process,
        byte_at(s, at + 9),
        byte_at(s, at + 10),
    );
    host_step(o, at + 11, words, memory, text)
}

// A catalogue: its words, all of them, so that those of names not in use arrive as they were given too.
fn catalogue_step(
    s: &[u8],
    at: usize,
    words: &mut [u64; 1605],
    memory: &[u8],
    text: &mut [u8],
) -> Step
    requires at_in_bounds { at < length s.now }
    requires s_len_bound { length s.now ≤ 262144 }
    ensures { (at < result.next) × (result.length ≤ length text.new) }
{
    let given = catalogue_words(s, at + 1);
    let o = set_catalogue(words, &given);
    host_step(o, at + 226, words, memory, text)
}

// The call that stands at a place of the history.
pub(crate) fn play(
    s: &[u8],
    at: usize,
    words: &mut [u64; 1605],
    memory: &mut [u8],
    room: &mut [u8],
    text: &mut [u8],
) -> Step
    requires at_in_bounds { at < length s.now }
    requires s_len_bound { length s.now ≤ 262144 }
    ensures { (at < result.next) × (result.length ≤ length text.new) }
{
    let Some(kind) = kind_of(byte_at(s, at)) else {
        return Step {
            next: at + 1,
            length: 0,
        };
    };
    match kind {
        CallKind::AddSession => host_step(
            add_session(words, le32_at(s, at + 1)),
            at + 5,
            words,
            memory,
            text,
        ),
        CallKind::AddTree => host_step(
            add_tree(words, le16_at(s, at + 1), byte_at(s, at + 3)),
            at + 4,
            words,
            memory,
            text,
        ),
        CallKind::AddOpen => open_step(s, at, words, memory, text),
        CallKind::LoadFile => load_step(s, at, words, memory, text),
        CallKind::DropConnection => host_step(
            drop_connection(words, le32_at(s, at + 1)),
            at + 5,
            words,
            memory,
            text,
        ),
        CallKind::TakeMessage => message_step(s, at, words, memory, room, text),
        CallKind::SetCatalogue => catalogue_step(s, at, words, memory, text),
        CallKind::AskUnchanged => host_step(
            ask_unchanged(words, le16_at(s, at + 1)),
            at + 3,
            words,
            memory,
            text,
        ),
        CallKind::EndSession => host_step(
            end_one(words, One::Session(le16_at(s, at + 1))),
            at + 3,
            words,
            memory,
            text,
        ),
        CallKind::EndTree => host_step(
            end_one(words, One::Tree(le16_at(s, at + 1))),
            at + 3,
            words,
            memory,
            text,
        ),
        CallKind::EndOpen => host_step(
            end_one(words, One::Open(le16_at(s, at + 1))),
            at + 3,
            words,
            memory,
            text,
        ),
    }
}
