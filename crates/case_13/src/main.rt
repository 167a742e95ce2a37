// Case 13 of document 01: standard input is a message, which is taken on the small gateway; printed are the number, the reply's
// length, and the reply in hex.
#![tactic(auto)]

use input::read_full;
use sample::show::put_answer;
use sample::{CONNECTION, one_terminal};
use server::call::take_message;
use std::io;

fn main(rt: HostRuntime) -> io::Result<()> {
    let mut message = [0u8; 8193];
    let n = read_full(&mut rt.reader(), &mut message)?;
    let mut words = [0u64; 1605];
    let mut memory = [0u8; 65536];
    let mut room = [0u8; 12292];
    one_terminal(&mut words, &mut memory);
    let taken = take_message(
        CONNECTION,
        &message[..n],
        &mut words,
        &mut memory,
        &mut room,
    );
    let (number, written) = match taken {
        Ok(taken) => (0, taken.length),
        Err(why) => (why.number(), 0),
    };
    let mut text = [0u8; 32768];
    let length = put_answer(&mut text, 0, number, written, &room);
    rt.write_all(&text[..length])
}
