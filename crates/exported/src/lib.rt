// Each exported function called as it stands, with what the host sees of it in the core's own words (`demands/specs/Exported.antt`,
// `StreamSeen.antt`). A contract of `gateway` that says less, or that speaks of another argument, does not give these.
#![tactic(auto)]

ghost use Rattle.std.specs.Prelude.{◌≡◌, length, replicate};
ghost use Rattle.tables.specs.Words.{tables_of};
ghost use Rattle.host.specs.HostCall.{add_session, add_tree, add_open, drop_connection, end_one};
ghost use Rattle.host.specs.declared.ending.One.TheVariants.{Session as OneSession, Tree as OneTree, Open as OneOpen};
ghost use Rattle.claims.specs.EndOne.{OneEnded};
ghost use Rattle.claims.specs.HostFrames.{SessionAdded, TreeAdded, OpenAdded, ConnectionDropped};
ghost use Rattle.stream.specs.State.{none_begun};
ghost use Rattle.demands.specs.Exported.{CallSeen, LoadSeen, CatalogueSeen, UnchangedSeen, MessageSeen};
ghost use Rattle.demands.specs.StreamSeen.{state_read, PieceSeen, WrittenSeen};

use gateway::byte_stream::{gateway_stream_read, gateway_stream_reset, gateway_stream_write};
use gateway::{
    gateway_add_open, gateway_add_session, gateway_add_tree, gateway_drop_connection,
    gateway_empty, gateway_end_open, gateway_end_session, gateway_end_tree, gateway_load_file,
    gateway_set_catalogue, gateway_take_message, gateway_unchanged, gateway_words,
};

// Every word is 0: no record in use, every file empty.
pub fn seen_empty(tables: &mut [u64; 1605])
    ensures { tables.new ≡ replicate 1605 0 }
{
    gateway_empty(tables);
}

// How many words the tables are that every call is lent: as many as `gateway_empty` writes.
pub fn seen_words(tables: &mut [u64; 1605]) -> u64
    ensures { result ≡ length tables.new }
{
    gateway_empty(tables);
    gateway_words()
}

// A session on that connection.
pub fn seen_session(tables: &mut [u64; 1605], connection: u32, uid: &mut u16) -> u8
    ensures { CallSeen (SessionAdded (tables_of tables.old) connection) tables.old uid.old (add_session (tables_of tables.old) connection) result tables.new uid.new }
{
    gateway_add_session(tables, connection, uid)
}

// A tree of that session, with that right.
pub fn seen_tree(tables: &mut [u64; 1605], uid: u32, right: u32, tid: &mut u16) -> u8
    ensures { CallSeen (TreeAdded (tables_of tables.old) uid right) tables.old tid.old (add_tree (tables_of tables.old) uid right) result tables.new tid.new }
{
    gateway_add_tree(tables, uid, right, tid)
}

// An open through that tree of that session, for that process, of that file, with that access.
pub fn seen_open(
    tables: &mut [u64; 1605],
    uid: u32,
    tid: u32,
    process: u32,
    file: u32,
    access: u32,
    fid: &mut u16,
) -> u8
    ensures { CallSeen (OpenAdded (tables_of tables.old) uid tid process file access) tables.old fid.old (add_open (tables_of tables.old) uid tid process file access) result tables.new fid.new }
{
    gateway_add_open(tables, uid, tid, process, file, access, fid)
}

// Those contents in that file.
pub fn seen_load(tables: &mut [u64; 1605], file: u32, contents: &[u8], memory: &mut [u8]) -> u8
    ensures { LoadSeen tables.old file contents.now memory.old result tables.new memory.new }
{
    gateway_load_file(tables, file, contents, memory)
}

// That connection dropped. No number is given out: the 0 before and after.
pub fn seen_drop(tables: &mut [u64; 1605], connection: u32) -> u8
    ensures { CallSeen (ConnectionDropped (tables_of tables.old) connection) tables.old 0 (drop_connection (tables_of tables.old) connection) result tables.new 0 }
{
    gateway_drop_connection(tables, connection)
}

// The session of that UID ended. No number is given out: the 0 before and after.
pub fn seen_end_session(tables: &mut [u64; 1605], uid: u32) -> u8
    ensures { CallSeen (OneEnded (tables_of tables.old) (OneSession uid)) tables.old 0 (end_one (tables_of tables.old) (OneSession uid)) result tables.new 0 }
{
    gateway_end_session(tables, uid)
}

// The tree of that TID ended. No number is given out: the 0 before and after.
pub fn seen_end_tree(tables: &mut [u64; 1605], tid: u32) -> u8
    ensures { CallSeen (OneEnded (tables_of tables.old) (OneTree tid)) tables.old 0 (end_one (tables_of tables.old) (OneTree tid)) result tables.new 0 }
{
    gateway_end_tree(tables, tid)
}

// The open of that FID ended. No number is given out: the 0 before and after.
pub fn seen_end_open(tables: &mut [u64; 1605], fid: u32) -> u8
    ensures { CallSeen (OneEnded (tables_of tables.old) (OneOpen fid)) tables.old 0 (end_one (tables_of tables.old) (OneOpen fid)) result tables.new 0 }
{
    gateway_end_open(tables, fid)
}

// That catalogue, whole.
pub fn seen_catalogue(tables: &mut [u64; 1605], catalogue: &[u64; 225]) -> u8
    ensures { CatalogueSeen tables.old catalogue.now result tables.new }
{
    gateway_set_catalogue(tables, catalogue)
}

// Whether the file of that open is unchanged.
pub fn seen_unchanged(tables: &[u64; 1605], fid: u32, unchanged: &mut u16) -> u8
    ensures { UnchangedSeen tables.now fid unchanged.old result unchanged.new }
{
    gateway_unchanged(tables, fid, unchanged)
}

// That message of that connection.
pub fn seen_message(
    tables: &mut [u64; 1605],
    connection: u32,
    message: &[u8],
    memory: &mut [u8],
    room: &mut [u8],
    written: &mut usize,
    holder: &mut [u64; 6],
) -> u8
    ensures { MessageSeen connection message.now tables.old memory.old room.old written.old holder.old result tables.new memory.new room.new written.new holder.new }
{
    gateway_take_message(tables, connection, message, memory, room, written, holder)
}

// A reader that has read nothing, whatever the words were: all are 0.
pub fn seen_stream_reset(state: &mut [u64; 7])
    ensures state_after { state.new ≡ replicate 7 0 }
    ensures state_after_2 { state_read state.new ≡ none_begun }
{
    gateway_stream_reset(state);
}

// That piece of the stream.
pub fn seen_stream_read(
    state: &mut [u64; 7],
    buffer: &mut [u8; 8192],
    piece: &[u8],
    step: &mut [u64; 4],
) -> u8
    ensures { PieceSeen state.old buffer.old piece.now step.old result state.new buffer.new step.new }
{
    gateway_stream_read(state, buffer, piece, step)
}

// That message behind its header.
pub fn seen_stream_write(message: &[u8], room: &mut [u8], written: &mut usize) -> u8
    ensures { WrittenSeen message.now room.old written.old result room.new written.new }
{
    gateway_stream_write(message, room, written)
}
