// Case 14 of document 01: with 128 locks held the 129th is refused 1/8; after one unlock it is granted. Each lock is asked for by
// a message of its own, on the small gateway.
#![tactic(auto)]

use sample::show::put_status;
use sample::{CONNECTION, one_terminal};
use server::call::take_message;
use std::io;

// Taken on the words: the message that unlocks the byte at one place, or locks it, by process 7 through FID 1.
fn ask(
    unlocks: u8,
    locks: u8,
    place: u8,
    words: &mut [u64; 1605],
    memory: &mut [u8],
    room: &mut [u8],
) {
    let message = [
        0xff, 0x53, 0x4d, 0x42, 0x24, 0, 0, 0, 0, 0, 0, 0, 0, 0, 0, 0, 0, 0, 0, 0, 0, 0, 0, 0, 1,
        0, 7, 0, 1, 0, 3, 0, 8, 0xff, 0, 0, 0, 1, 0, 0, 0, 0, 0, 0, 0, unlocks, 0, locks, 0, 10, 0,
        7, 0, place, 0, 0, 0, 1, 0, 0, 0,
    ];
    let _ = take_message(CONNECTION, &message, words, memory, room);
}

// 128 locks, a byte each.
fn hold_all(words: &mut [u64; 1605], memory: &mut [u8], room: &mut [u8]) {
    for place in 0..128 {
        ask(0, 1, place, words, memory, room);
    }
}

fn main(rt: HostRuntime) -> io::Result<()> {
    let mut words = [0u64; 1605];
    let mut memory = [0u8; 65536];
    let mut room = [0u8; 12292];
    let mut text = [0u8; 256];
    one_terminal(&mut words, &mut memory);
    hold_all(&mut words, &mut memory, &mut room);
    let a1 = put_status(&mut text, 0, b"128th", &room);
    ask(0, 1, 128, &mut words, &mut memory, &mut room);
    let a2 = put_status(&mut text, a1, b"129th", &room);
    ask(1, 0, 17, &mut words, &mut memory, &mut room);
    let a3 = put_status(&mut text, a2, b"unlock", &room);
    ask(0, 1, 128, &mut words, &mut memory, &mut room);
    let a4 = put_status(&mut text, a3, b"129th", &room);
    rt.write_all(&text[..a4])
}
