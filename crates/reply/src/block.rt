// A reply block (document 01, "Reply blocks"; document 02, CR 3 and CR 6): "each is written into the room left after the one before". The room that a
// writer is lent begins where its block is to stand.

ghost use Rattle.std.specs.Prelude.{◌≡◌, ◌+◌, ◌≤◌, true, [], ◌∷◌, ◌++◌, length, take, drop, replicate};
ghost use Rattle.lists.specs.Put.{put};
ghost use Rattle.message.specs.Command.{read};
ghost use Rattle.message.specs.Reply.{two, link_words, refused_block, reply_block};
ghost use Rattle.message.specs.Given.{said_of, bytes_inside, inside, block_of, done_size, answer_size};
ghost use Rattle.reply.specs.Fronts.{read_start, read_extent, core_front, open_start, open_codes};
ghost use Rattle.reply.specs.Links.{link_for, link_command, link_place};

use crate::little_endian::{high, low};
use chain::block::{Follower, Next};
use message::answer::Answer;
use message::refusal::Refusal;
use wire::fill::lay;

// "AndX names the next block written", which stands at `place`.
#[tactic(auto, unfolding(crate::specs::Links::link_for))]
pub fn link_to(next: Next, place: usize) -> Next
    ensures { result ≡ link_for next place }
{
    next.map(|follower| Follower {
        command: follower.command,
        at: place,
    })
}

// AndXCommand: "with none it is FF 00 00 00".
#[tactic(auto, unfolding(crate::specs::Links::link_command))]
fn link_command(link: Next) -> u8
    ensures { result ≡ link_command link }
{
    link.map_or(0xff, |follower| follower.command)
}

// AndXOffset.
#[tactic(auto, unfolding(crate::specs::Links::link_place))]
fn link_place(link: Next) -> usize
    ensures { result ≡ link_place link }
{
    link.map_or(0, |follower| follower.at)
}

// A READ's data stand behind WordCount, 12 words and ByteCount.
const READ_DATA: usize = 27;

// A core READ's data stand behind WordCount, 5 words, ByteCount, and the mark and length of its data block.
const CORE_READ_DATA: usize = 16;

// How long the block of a command done is.
#[tactic(auto, unfolding(message::specs::Given::done_size))]
fn done_size(a: Answer) -> usize
    requires { bytes_inside a ≡ true }
    ensures { result ≡ done_size a }
{
    match a {
        Answer::Locked => 7,
        Answer::LoggedOff => 7,
        Answer::Read(_, count) => READ_DATA + count,
        Answer::Wrote(_) => 15,
        Answer::Plain => 3,
        Answer::CoreRead(_, count) => CORE_READ_DATA + count,
        Answer::CoreWrote(_) => 5,
        Answer::Opened(_, _, _, _) => 33,
    }
}

// How long the block of an answer is.
#[tactic(auto, unfolding(message::specs::Given::inside, message::specs::Given::answer_size))]
pub fn block_size(answered: Result<Answer, Refusal>) -> usize
    requires { inside answered ≡ true }
    ensures { result ≡ answer_size answered }
{
    match answered {
        Ok(a) => done_size(a),
        Err(_) => 3,
    }
}

// "A refused command or message gives WordCount 0 and ByteCount 0"; "Others: 0 words".
#[tactic(auto, unfolding(message::specs::Reply::refused_block))]
fn write_bare(room: &mut [u8])
    requires { 3 ≤ length room.old }
    ensures { room.new ≡ put room.old 0 refused_block }
{
    lay(&[0; 3], room);
}

// "LOCKING and LOGOFF: 2 words."
fn write_linked(link: Next, room: &mut [u8])
    requires { 7 ≤ length room.old }
    ensures { room.new ≡ put room.old 0 (2 ∷ (link_words link ++ (0 ∷ 0 ∷ []))) }
{
    let andx = link_command(link);
    let next = link_place(link);
    let linked = [2, andx, 0, low(next), high(next), 0, 0];
    lay(&linked, room);
}

// "WRITE: 6 words: AndX, count, 0xFFFF, four zero bytes."
fn write_wrote(count: u16, link: Next, room: &mut [u8])
    requires { 15 ≤ length room.old }
    ensures { room.new ≡ put room.old 0 (6 ∷ (link_words link ++ (two count ++ (two 0xFFFF ++ (replicate 4 0 ++ (0 ∷ 0 ∷ [])))))) }
{
    let andx = link_command(link);
    let next = link_place(link);
    let p0 = low(next);
    let p1 = high(next);
    let n = usize::from(count);
    let n0 = low(n);
    let n1 = high(n);
    let written = [6, andx, 0, p0, p1, n0, n1, 0xff, 0xff, 0, 0, 0, 0, 0, 0];
    lay(&written, room);
}

// "READ: 12 words: AndX, 0xFFFF, 0, 0"
fn write_read_start(link: Next, room: &mut [u8])
    requires { 11 ≤ length room.old }
    ensures { room.new ≡ put room.old 0 (read_start link) }
{
    let andx = link_command(link);
    let next = link_place(link);
    let p0 = low(next);
    let p1 = high(next);
    let start = [12, andx, 0, p0, p1, 0xff, 0xff, 0, 0, 0, 0];
    lay(&start, room);
}

// "length, data offset, ten zero bytes", and ByteCount. The data stand 27 bytes behind the block's place.
fn write_extent(count: usize, place: usize, room: &mut [u8])
    requires in_bounds { 16 ≤ length room.old }
    requires place_bound { place ≤ 12292 }
    ensures { room.new ≡ put room.old 0 (read_extent count place) }
{
    let n0 = low(count);
    let n1 = high(count);
    let from = place + READ_DATA;
    let f0 = low(from);
    let f1 = high(from);
    let extent = [n0, n1, f0, f1, 0, 0, 0, 0, 0, 0, 0, 0, 0, 0, n0, n1];
    lay(&extent, room);
}

// "the bytes are the data", copied straight from the file memory.
fn write_read(at: usize, count: usize, place: usize, link: Next, memory: &[u8], room: &mut [u8])
    requires memory_len { length memory.now ≡ 65536 }
    requires count_bound { at + count ≤ 65536 }
    requires count_in_bounds { 27 + count ≤ length room.old }
    requires place_bound { place ≤ 12292 }
    ensures { room.new ≡ put room.old 0 (reply_block (read (take count (drop at memory.now))) place link) }
{
    write_read_start(link, room);
    write_extent(count, place, &mut room[11..]);
    let to = at + count;
    lay(&memory[at..to], &mut room[READ_DATA..]);
}

// The core READ: 5 words: count, eight zero bytes; ByteCount counts the data block, which begins 0x01, length.
fn write_core_front(count: usize, room: &mut [u8])
    requires in_bounds { 16 ≤ length room.old }
    requires count_bound { count ≤ 65536 }
    ensures { room.new ≡ put room.old 0 (core_front count) }
{
    let n0 = low(count);
    let n1 = high(count);
    let bytes = 3 + count;
    let b0 = low(bytes);
    let b1 = high(bytes);
    let front = [5, n0, n1, 0, 0, 0, 0, 0, 0, 0, 0, b0, b1, 1, n0, n1];
    lay(&front, room);
}

// Behind them the data, copied straight from the file memory.
fn write_core_read(at: usize, count: usize, memory: &[u8], room: &mut [u8])
    requires memory_len { length memory.now ≡ 65536 }
    requires count_bound { at + count ≤ 65536 }
    requires count_in_bounds { 16 + count ≤ length room.old }
    ensures { room.new ≡ put room.old 0 (core_front count ++ take count (drop at memory.now)) }
{
    write_core_front(count, room);
    let to = at + count;
    lay(&memory[at..to], &mut room[CORE_READ_DATA..]);
}

// The core WRITE: 1 word, the count.
fn write_core_wrote(count: u16, room: &mut [u8])
    requires { 5 ≤ length room.old }
    ensures { room.new ≡ put room.old 0 (1 ∷ (two count ++ (0 ∷ 0 ∷ []))) }
{
    let n = usize::from(count);
    let written = [1, low(n), high(n), 0, 0];
    lay(&written, room);
}

// OPEN_ANDX (source document 001): 15 words: AndX, FID, six zero bytes.
fn write_open_start(fid: u16, link: Next, room: &mut [u8])
    requires { 13 ≤ length room.old }
    ensures { room.new ≡ put room.old 0 (open_start fid link) }
{
    let andx = link_command(link);
    let next = link_place(link);
    let p0 = low(next);
    let p1 = high(next);
    let n = usize::from(fid);
    let f0 = low(n);
    let f1 = high(n);
    let start = [15, andx, 0, p0, p1, f0, f1, 0, 0, 0, 0, 0, 0];
    lay(&start, room);
}

// Size 4, access 2, four zero bytes, OpenResults 2.
fn write_open_codes(size: usize, access: u8, results: u8, room: &mut [u8])
    requires { 12 ≤ length room.old }
    ensures { room.new ≡ put room.old 0 (open_codes size access results) }
{
    let s0 = low(size);
    let s1 = high(size);
    let upper = size / 65536;
    let s2 = low(upper);
    let s3 = high(upper);
    let codes = [s0, s1, s2, s3, access, 0, 0, 0, 0, 0, results, 0];
    lay(&codes, room);
}

// Behind both six zero bytes, and ByteCount 0.
fn write_opened(fid: u16, size: usize, access: u8, results: u8, link: Next, room: &mut [u8])
    requires { 33 ≤ length room.old }
    ensures { room.new ≡ put room.old 0 ((open_start fid link ++ open_codes size access results) ++ replicate 8 0) }
{
    write_open_start(fid, link, room);
    write_open_codes(size, access, results, &mut room[13..]);
    lay(&[0; 8], &mut room[25..]);
}

// The block of a command done.
fn write_done(a: Answer, place: usize, link: Next, memory: &[u8], room: &mut [u8])
    requires memory_len { length memory.now ≡ 65536 }
    requires a_value { bytes_inside a ≡ true }
    requires a_in_bounds { done_size a ≤ length room.old }
    requires place_bound { place ≤ 12292 }
    ensures { room.new ≡ put room.old 0 (reply_block (said_of a memory.now) place link) }
{
    match a {
        Answer::Locked => write_linked(link, room),
        Answer::LoggedOff => write_linked(link, room),
        Answer::Read(at, count) => write_read(at, count, place, link, memory, room),
        Answer::Wrote(count) => write_wrote(count, link, room),
        Answer::Plain => write_bare(room),
        Answer::CoreRead(at, count) => write_core_read(at, count, memory, room),
        Answer::CoreWrote(count) => write_core_wrote(count, room),
        Answer::Opened(fid, size, access, results) => write_opened(
            fid, size, access, results, link, room,
        ),
    }
}

// The block of an answer, at the front of the room left for it.
#[tactic(auto, unfolding(message::specs::Given::inside, message::specs::Given::answer_size, message::specs::Given::block_of))]
pub fn write_block(
    answered: Result<Answer, Refusal>,
    place: usize,
    link: Next,
    memory: &[u8],
    room: &mut [u8],
)
    requires memory_len { length memory.now ≡ 65536 }
    requires a_value { inside answered ≡ true }
    requires a_in_bounds { answer_size answered ≤ length room.old }
    requires place_bound { place ≤ 12292 }
    ensures { room.new ≡ put room.old 0 (block_of answered memory.now place link) }
{
    match answered {
        Ok(a) => write_done(a, place, link, memory, room),
        Err(_) => write_bare(room),
    }
}
