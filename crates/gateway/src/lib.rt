// The gateway as a C program calls it (include/gateway.h): the tables are 1605 words of the host's. A number that names a record, a
// right, a file or an access is 32 bits wide, and one that its field cannot hold is answered as document 01 says for that number.
#![tactic(auto)]

mod argument;
pub mod byte_stream;
mod given;
mod holder;

ghost use Rattle.std.specs.Prelude.{◌≡◌, true, replicate};
ghost use Rattle.host.specs.HostCall.{no_tables};
ghost use Rattle.host.specs.declared.ending.One.TheVariants.{Session as OneSession, Tree as OneTree, Open as OneOpen};
ghost use Rattle.tables.specs.Words.{tables_of};
ghost use Rattle.boundary.specs.Boundary.{table_words, number_of, id_after, session_added, tree_added, open_added, connection_dropped, file_loaded, load_number_of, memory_after, catalogue_set, unchanged_asked, one_ended, message_taken, length_after, holder_after, ready, ForNext};

use crate::argument::{to_number, to_small};
use crate::given::hand_out;
use crate::holder::put_holder;
use host::answer::{DONE, number_of};
use host::connection::drop_connection;
use host::empty::empty_words;
use host::ending::{One, end_one};
use host::file::load_file;
use host::names::set_catalogue;
use host::open::add_open;
use host::session::add_session;
use host::tree::add_tree;
use host::unchanged::ask_unchanged;
use server::call::take_message;

// How many words the tables are. A host compares it with its header's number: an old header with a new library is noticed so.
pub fn gateway_words() -> u64
    ensures { result ≡ table_words }
{
    1605
}

// Tables to start from.
pub fn gateway_empty(tables: &mut [u64; 1605])
    ensures tables_after { tables.new ≡ replicate 1605 0 }
    ensures tables_after_2 { tables_of tables.new ≡ no_tables }
    ensures tables_after_3 { ready tables.new ≡ true }
{
    empty_words(tables);
}

// A session on a connection; its UID goes to uid.
pub fn gateway_add_session(tables: &mut [u64; 1605], connection: u32, uid: &mut u16) -> u8
    ensures value { result ≡ number_of tables.old (session_added tables.old connection) }
    ensures uid_after { uid.new ≡ id_after uid.old tables.old (session_added tables.old connection) }
    ensures for_next { ForNext tables.old tables.new result (session_added tables.old connection).tables }
{
    let given = add_session(tables, connection);
    hand_out(given, uid)
}

// A tree of a session; its TID goes to tid.
pub fn gateway_add_tree(tables: &mut [u64; 1605], uid: u32, right: u32, tid: &mut u16) -> u8
    ensures value { result ≡ number_of tables.old (tree_added tables.old uid right) }
    ensures tid_after { tid.new ≡ id_after tid.old tables.old (tree_added tables.old uid right) }
    ensures for_next { ForNext tables.old tables.new result (tree_added tables.old uid right).tables }
{
    let narrow_uid = to_number(uid);
    let narrow_right = to_small(right);
    let given = add_tree(tables, narrow_uid, narrow_right);
    hand_out(given, tid)
}

// An open of a file through a tree; its FID goes to fid.
pub fn gateway_add_open(
    tables: &mut [u64; 1605],
    uid: u32,
    tid: u32,
    process: u32,
    file: u32,
    access: u32,
    fid: &mut u16,
) -> u8
    ensures value { result ≡ number_of tables.old (open_added tables.old uid tid process file access) }
    ensures fid_after { fid.new ≡ id_after fid.old tables.old (open_added tables.old uid tid process file access) }
    ensures for_next { ForNext tables.old tables.new result (open_added tables.old uid tid process file access).tables }
{
    let narrow_uid = to_number(uid);
    let narrow_tid = to_number(tid);
    let narrow_file = to_small(file);
    let narrow_access = to_small(access);
    let given = add_open(
        tables,
        narrow_uid,
        narrow_tid,
        process,
        narrow_file,
        narrow_access,
    );
    hand_out(given, fid)
}

// The contents of a file that has no open, put into the file memory.
pub fn gateway_load_file(
    tables: &mut [u64; 1605],
    file: u32,
    contents: &[u8],
    memory: &mut [u8],
) -> u8
    ensures value { result ≡ load_number_of tables.old file contents.now memory.old }
    ensures memory_after { memory.new ≡ memory_after tables.old file contents.now memory.old }
    ensures for_next { ForNext tables.old tables.new result (file_loaded tables.old file contents.now memory.old).tables }
{
    let narrow_file = to_small(file);
    number_of(load_file(tables, narrow_file, contents, memory))
}

// A connection has ended: its sessions go, each with what hangs on it.
pub fn gateway_drop_connection(tables: &mut [u64; 1605], connection: u32) -> u8
    ensures value { result ≡ number_of tables.old (connection_dropped tables.old connection) }
    ensures for_next { ForNext tables.old tables.new result (connection_dropped tables.old connection).tables }
{
    number_of(drop_connection(tables, connection))
}

// One session ended by its UID, with its trees, opens and locks.
pub fn gateway_end_session(tables: &mut [u64; 1605], uid: u32) -> u8
    ensures value { result ≡ number_of tables.old (one_ended tables.old (OneSession uid)) }
    ensures for_next { ForNext tables.old tables.new result (one_ended tables.old (OneSession uid)).tables }
{
    let its_uid = to_number(uid);
    number_of(end_one(tables, One::Session(its_uid)))
}

// One tree ended by its TID, with its opens and their locks.
pub fn gateway_end_tree(tables: &mut [u64; 1605], tid: u32) -> u8
    ensures value { result ≡ number_of tables.old (one_ended tables.old (OneTree tid)) }
    ensures for_next { ForNext tables.old tables.new result (one_ended tables.old (OneTree tid)).tables }
{
    let its_tid = to_number(tid);
    number_of(end_one(tables, One::Tree(its_tid)))
}

// One open ended by its FID, with its locks.
pub fn gateway_end_open(tables: &mut [u64; 1605], fid: u32) -> u8
    ensures value { result ≡ number_of tables.old (one_ended tables.old (OneOpen fid)) }
    ensures for_next { ForNext tables.old tables.new result (one_ended tables.old (OneOpen fid)).tables }
{
    let its_fid = to_number(fid);
    number_of(end_one(tables, One::Open(its_fid)))
}

// The catalogue, set whole: 225 words, a count and 16 names of 14 words each.
pub fn gateway_set_catalogue(tables: &mut [u64; 1605], catalogue: &[u64; 225]) -> u8
    ensures value { result ≡ number_of tables.old (catalogue_set tables.old catalogue.now) }
    ensures for_next { ForNext tables.old tables.new result (catalogue_set tables.old catalogue.now).tables }
{
    number_of(set_catalogue(tables, catalogue))
}

// Whether an open has read and its file was not changed since, as far as the change numbers tell (document 02, CR 8): 1 goes to unchanged for "unchanged", 0 for "changed". The
// tables are only read.
pub fn gateway_unchanged(tables: &[u64; 1605], fid: u32, unchanged: &mut u16) -> u8
    ensures value { result ≡ number_of tables.now (unchanged_asked tables.now fid) }
    ensures unchanged_after { unchanged.new ≡ id_after unchanged.old tables.now (unchanged_asked tables.now fid) }
{
    let narrow_fid = to_number(fid);
    let given = ask_unchanged(tables, narrow_fid);
    hand_out(given, unchanged)
}

// A request message of a connection. The reply goes to the start of the room, its length to written, and who holds the lock in its way
// to holder.
pub fn gateway_take_message(
    tables: &mut [u64; 1605],
    connection: u32,
    message: &[u8],
    memory: &mut [u8],
    room: &mut [u8],
    written: &mut usize,
    holder: &mut [u64; 6],
) -> u8
    ensures value { result ≡ (message_taken connection message.now tables.old memory.old room.old).number }
    ensures memory_after { memory.new ≡ (message_taken connection message.now tables.old memory.old room.old).memory }
    ensures room_after { room.new ≡ (message_taken connection message.now tables.old memory.old room.old).room }
    ensures written_after { written.new ≡ length_after written.old (message_taken connection message.now tables.old memory.old room.old) }
    ensures holder_after { holder.new ≡ holder_after holder.old (message_taken connection message.now tables.old memory.old room.old) }
    ensures for_next { ForNext tables.old tables.new result (message_taken connection message.now tables.old memory.old room.old).tables }
{
    match take_message(connection, message, tables, memory, room) {
        Ok(taken) => {
            *written = taken.length;
            put_holder(taken.holder, holder);
            DONE
        }
        Err(why) => why.number(),
    }
}
