// What is printed: a line for each message, and one for the end.

ghost use Rattle.text.specs.Over.{Written};
ghost use Rattle.replay_stream.specs.Lines.{message_line, end_line};

use digest::digest_words;
use std::io;
use stream::state::State;
use text::{put_number, put_text};

// A message's length, its number, its reply's length and the digest of the reply behind its header.
fn put_message(text: &mut [u8], size: usize, number: u8, length: usize, digest: usize) -> usize
    ensures { Written text.old 0 (message_line size number length digest) text.new result }
{
    let a1 = put_text(text, 0, b"message");
    let a2 = put_number(text, a1, size);
    let a3 = put_number(text, a2, number as usize);
    let a4 = put_number(text, a3, length);
    let a5 = put_number(text, a4, digest);
    put_text(text, a5, b"\n")
}

// The reader's last number, the digest of its words, and the digest of the tables and the file memory.
fn put_end(text: &mut [u8], number: u8, reader: usize, tables: usize) -> usize
    ensures { Written text.old 0 (end_line number reader tables) text.new result }
{
    let a1 = put_text(text, 0, b"reader");
    let a2 = put_number(text, a1, number as usize);
    let a3 = put_number(text, a2, reader);
    let a4 = put_number(text, a3, tables);
    put_text(text, a4, b"\n")
}

pub(crate) fn print_message(
    rt: &impl Print,
    size: usize,
    number: u8,
    length: usize,
    digest: usize,
) -> io::Result<()> {
    let mut text = [0u8; 128];
    let end = put_message(&mut text, size, number, length, digest);
    rt.write_all(&text[..end])
}

pub(crate) fn print_end(rt: &impl Print, number: u8, s: State, tables: usize) -> io::Result<()> {
    let seven = [
        s.stopped, s.begun, s.first, s.second, s.third, s.length, s.got,
    ];
    let reader = digest_words(0, &seven) as usize;
    let mut text = [0u8; 128];
    let end = put_end(&mut text, number, reader, tables);
    rt.write_all(&text[..end])
}
