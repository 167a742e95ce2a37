// A small gateway for the programs that play document 01's cases: one terminal with one open, on a file of 120 bytes.
// `names` is for the programs that play a recording: a catalogue out of bytes.
#![tactic(auto)]

pub mod names;
pub mod show;

ghost use Rattle.std.specs.Prelude.{◌≡◌, true};
ghost use Rattle.tables.specs.Words.{tables_of, in_use_fit};
ghost use Rattle.sample.specs.Terminal.{terminal_tables, terminal_memory};

use host::empty::empty_words;
use host::file::load_file;
use host::open::add_open;
use host::session::add_session;
use host::tree::add_tree;

// The connection of the terminal.
pub const CONNECTION: u32 = 5;

// File 0 has 120 bytes; UID 1, TID 1 and FID 1 are a session, its tree for reading and writing, and an open of that file for both by
// process 7.
pub fn one_terminal(words: &mut [u64; 1605], memory: &mut [u8])
    ensures words_after { tables_of words.new ≡ terminal_tables memory.old }
    ensures words_after_2 { in_use_fit words.new ≡ true }
    ensures memory_after { memory.new ≡ terminal_memory memory.old }
{
    let list =
        b"Certificates revoked by the office, one to a line, as of this morning: 0017 0042 0311 0768 0901 1024 1183 1399 1777 2048";
    empty_words(words);
    // None of these is refused: the tables left have all four.
    let _ = load_file(words, 0, list, memory);
    let _ = add_session(words, CONNECTION);
    let _ = add_tree(words, 1, 1);
    let _ = add_open(words, 1, 1, 7, 0, 2);
}
