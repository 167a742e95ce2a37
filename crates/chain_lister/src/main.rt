// The chain lister: standard input is one message; the listing goes to standard output. One byte more
// than the longest message is read, which is enough to see that a message is too long. Every listing
// fits the buffer (`listing-fits`).
#![tactic(auto)]

use input::read_full;
use std::io;

fn main(rt: HostRuntime) -> io::Result<()> {
    let mut message = [0u8; 8193];
    let n = read_full(&mut rt.reader(), &mut message)?;
    let mut text = [0u8; 65536];
    let length = listing::list_message(&message[..n], &mut text);
    rt.write_all(&text[..length])
}
