// The replay of a stream: standard input is what one connection sent, recorded, each message behind its session header (RFC 1002). It comes
// to the reader in pieces (`cut` says how long), each message handed out is taken on one set of tables, and its reply written behind
// a header. `show` says what is printed; how the stream is cut changes none of it.
#![tactic(auto)]

mod cut;
mod play;
mod show;

ghost use Rattle.std.specs.Prelude.{◌≤◌, length};

use crate::cut::{first_cut, next_cut};
use crate::play::{play_piece, set_up};
use crate::show::print_end;
use digest::state_digest;
use input::read_full;
use std::io;
use stream::state::start;

// The whole stream. A call takes a byte at least, or the reader is stopped or the stream at its end, so that more calls than bytes change nothing.
fn replay(
    rt: &impl Print,
    stream: &[u8],
    words: &mut [u64; 1605],
    memory: &mut [u8; 65536],
    buffer: &mut [u8; 8192],
) -> io::Result<()>
    requires { length stream.now ≤ 65536 }
{
    let mut cut = first_cut(stream.len());
    let mut state = start();
    let mut refusal = None;
    for _ in 0..=stream.len() {
        let at = cut.at;
        let end = cut.end;
        let played = play_piece(rt, state, &stream[at..end], buffer, words, memory)?;
        state = played.state;
        refusal = played.refusal;
        cut = next_cut(cut, played.taken, stream.len());
    }
    let number = match refusal {
        None => 0,
        Some(why) => why.number(),
    };
    print_end(rt, number, state, state_digest(words, memory) as usize)
}

fn main(rt: HostRuntime) -> io::Result<()> {
    let mut stream = [0u8; 65536];
    let n = read_full(&mut rt.reader(), &mut stream)?;
    let mut words = [0u64; 1605];
    let mut memory = [0u8; 65536];
    let mut buffer = [0u8; 8192];
    set_up(&mut words, &mut memory);
    replay(&rt, &stream[..n], &mut words, &mut memory, &mut buffer)
}
