// The reader of a message: "a record that holds the message slice and a place" (document 01, "Layers"), thin
// over `judge`. `judge_at` has plain parameters, for who has no reader.

ghost use Rattle.std.specs.Prelude.{◌≡◌};
ghost use Rattle.chain.specs.Parse.{parse};
ghost use Rattle.chain.specs.Judged.{judged};

use crate::block::Judged;
use crate::judge::judge_block;

#[derive(Clone, Copy)]
pub struct MessageReader<'a> {
    pub message: &'a [u8],
    pub at: usize,
}

// A reader of the message, at a place.
pub fn reader_at<'a>(message: &'a [u8], at: usize) -> MessageReader<'a>
    ensures { (result.message ≡ message.entry) × (result.at ≡ at) }
{
    MessageReader { message, at }
}

// Whether a block with that command stands at the reader's place, and what follows it.
pub fn read_block<'a>(r: MessageReader<'a>, command: u8) -> Judged
    ensures { result ≡ judged (parse r.entry.message.now command r.entry.at) }
{
    judge_block(r.message, command, r.at)
}

// The same at a place of the message.
pub fn judge_at(s: &[u8], command: u8, at: usize) -> Judged
    ensures { result ≡ judged (parse s.now command at) }
{
    read_block(reader_at(s, at), command)
}
