// Taking a message: the numbers 2, 4 and 1 in that order, then 2/22 and 2/1 before anything is carried out,
// then the chain, command by command.

ghost use Rattle.std.specs.Prelude.{◌≡◌, true, ◌≤◌, length, Ok};
ghost use Rattle.message.specs.Caller.{caller_of};
ghost use Rattle.records.specs.declared.Tables.{Tables};
ghost use Rattle.message.specs.Refusal.{forms_of};
ghost use Rattle.message.specs.Message.{only_status, answered, replied};
ghost use Rattle.invariants.specs.Sound.{Good};
ghost use Rattle.tables.specs.Words.{tables_of, in_use_fit};
ghost use Rattle.boundary.specs.Boundary.{message_taken};
ghost use Rattle.server.specs.TakenOf.{row_number, number_in, taken_of};

use crate::run::run_chain;
use chain::command::is_served;
use chain::header::{COMMAND, FIRST, PID_HIGH, PID_LOW, SHORTEST, TID, UID, is_dropped};
use chain::reader::is_sentence;
use host::file::MEMORY;
use locks::types::Holder;
use message::caller::Caller;
use message::refusal::{Refusal, forms_of};
use reply::block::write_block;
use reply::header::write_header;
use soundness::whole::is_sound;

// "reply room 12,292": every reply fits.
const ROOM: usize = 12292;

// Rows 2 and 4 stand in `host::answer::HostRefusal` too: a host call never gives row 1, a message none of 5 to 9, so that each type has just what its
// call can give.
// Why a call takes no message: rows 1, 2 and 4 of document 01's table "What a call returns", by number. Nothing is written.
#[derive(Clone, Copy)]
pub enum CallRefusal {
    Dropped = 1,
    WrongRoom = 2,
    NotSound = 4,
}

impl CallRefusal {
    // The number of its row.
    pub fn number(self) -> u8
        ensures { result ≡ row_number self }
    {
        self as u8
    }
}

// Row 0: the reply's length, and beside it the holder (document 02, CR 2). The tables are left in the words.
#[derive(Clone, Copy)]
pub struct Taken {
    pub length: usize,
    pub holder: Option<Holder>,
}

// Who sends the message.
fn caller_of(connection: u32, s: &[u8]) -> Caller
    ensures { result ≡ caller_of connection s.now }
{
    let high = u32::from(wire::le16_at(s, PID_HIGH));
    let low = u32::from(wire::le16_at(s, PID_LOW));
    let process = 65536 * high + low;
    Caller {
        connection,
        uid: wire::le16_at(s, UID),
        tid: wire::le16_at(s, TID),
        process,
    }
}

// A message refused as a whole: nothing is carried out, whatever the tables are.
fn refuse_message(s: &[u8], why: Refusal, memory: &[u8], room: &mut [u8]) -> Taken
    requires in_bounds { 35 ≤ length s.now }
    requires memory_len { length memory.now ≡ 65536 }
    requires in_bounds_2 { 12292 ≤ length room.old }
    ensures { (t : Tables) → taken_of (Ok result) t memory.now room.new ≡ replied s.now room.old (only_status (forms_of why) t memory.now) }
{
    write_block(Err(why), FIRST, None, memory, &mut room[FIRST..]);
    write_header(s, forms_of(why), room);
    Taken {
        length: SHORTEST,
        holder: None,
    }
}

// A message fit to be answered.
fn answer_message(
    connection: u32,
    s: &[u8],
    words: &mut [u64],
    memory: &mut [u8],
    room: &mut [u8],
) -> Taken
    requires words_len { length words.old ≡ 1605 }
    requires good { Good (tables_of words.old) }
    requires in_bounds { 35 ≤ length s.now }
    requires s_len_bound { length s.now ≤ 8192 }
    requires memory_len { length memory.old ≡ 65536 }
    requires in_bounds_2 { 12292 ≤ length room.old }
    ensures room_after { taken_of (Ok result) (tables_of words.new) memory.new room.new ≡ replied s.now room.old (answered connection s.now (tables_of words.old) memory.old) }
    ensures words_after { in_use_fit words.old ≡ true → in_use_fit words.new ≡ true }
{
    let command = wire::byte_at(s, COMMAND);
    if !is_served(command) {
        return refuse_message(s, Refusal::NotServed, memory, room);
    }
    if !is_sentence(s, command, FIRST) {
        return refuse_message(s, Refusal::NotSentence, memory, room);
    }
    let ended = run_chain(caller_of(connection, s), s, words, memory, room);
    write_header(s, ended.forms, room);
    Taken {
        length: ended.length,
        holder: ended.holder,
    }
}

// One request message with its connection number. The reply is written at the start of the room; bytes past
// its length stay as they were. "A refusal of this table writes nothing at all": it leaves every word too.
pub fn take_message(
    connection: u32,
    s: &[u8],
    words: &mut [u64; 1605],
    memory: &mut [u8],
    room: &mut [u8],
) -> Result<Taken, CallRefusal>
    ensures room_after { taken_of result (tables_of words.new) memory.new room.new ≡ message_taken connection s.now words.old memory.old room.old }
    ensures words_unchanged { (number_in result ≡ 0 → ⊥) → words.new ≡ words.old }
    ensures words_after { in_use_fit words.old ≡ true → in_use_fit words.new ≡ true }
{
    if room.len() < ROOM {
        return Err(CallRefusal::WrongRoom);
    }
    if memory.len() != MEMORY {
        return Err(CallRefusal::WrongRoom);
    }
    if !is_sound(words) {
        return Err(CallRefusal::NotSound);
    }
    if is_dropped(s) {
        return Err(CallRefusal::Dropped);
    }
    Ok(answer_message(connection, s, words, memory, room))
}
