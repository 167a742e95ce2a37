// The replay: standard input is a recorded history of host calls and messages (`play` says how they are written down), each played on
// what the one before left, from empty tables on. For each a line is printed: the number, the number given out or the reply's length,
// the reply in hex, a digest of the tables and the file memory, and, of a message refused 1/33, who holds the lock in its way.
#![tactic(auto)]

mod line;
mod play;

ghost use Rattle.std.specs.Prelude.{◌≡◌, ◌≤◌, length};

use crate::play::play;
use host::empty::empty_words;
use input::read_full;
use std::io;

// The whole history, call by call: each says where the next one stands, so it is no `for`. The buffers are of fixed size, as the host lends
// them.
fn replay(
    rt: &impl Print,
    history: &[u8],
    words: &mut [u64; 1605],
    memory: &mut [u8],
    room: &mut [u8],
    text: &mut [u8],
) -> io::Result<()>
    requires { length history.now ≤ 262144 }
{
    empty_words(words);
    let mut at: usize = 0;
    while at < history.len() {
        let step = play(history, at, words, memory, room, text);
        let length = step.length;
        rt.write_all(&text[..length])?;
        at = step.next;
    }
    Ok(())
}

fn main(rt: HostRuntime) -> io::Result<()> {
    let mut history = [0u8; 262144];
    let n = read_full(&mut rt.reader(), &mut history)?;
    let mut words = [0u64; 1605];
    let mut memory = [0u8; 65536];
    let mut room = [0u8; 12292];
    let mut text = [0u8; 32768];
    replay(
        &rt,
        &history[..n],
        &mut words,
        &mut memory,
        &mut room,
        &mut text,
    )
}
