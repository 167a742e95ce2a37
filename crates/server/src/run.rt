// The commands of a chain, carried out one after the other.

ghost use Rattle.std.specs.Prelude.{◌≡◌, ◌+◌, ◌≤◌, true, length};
ghost use Rattle.lists.specs.Put.{put};
ghost use Rattle.chain.specs.Chain.{blocks};
ghost use Rattle.chain.specs.Judged.{readable};
ghost use Rattle.message.specs.Message.{run_chain};
ghost use Rattle.message.specs.Given.{inside, block_of, answer_size};
ghost use Rattle.invariants.specs.Sound.{Good};
ghost use Rattle.tables.specs.Words.{tables_of, in_use_fit};
ghost use Rattle.reply.specs.Links.{link_for};
ghost use Rattle.server.specs.Going.{Finished};

use crate::step::{NOBODY, forms_after, goes_on, holder_left, opened_by};
use chain::block::Next;
use chain::header::{COMMAND, FIRST};
use chain::parse::fields_at;
use locks::types::Holder;
use message::answer::Answer;
use message::caller::Caller;
use message::refusal::{Forms, Refusal};
use reply::block::{block_size, link_to, write_block};
use requests::perform::perform_block;

// How a chain ended: the status for the header in both forms, the holder that its refused command names, and where the reply ends.
#[derive(Clone, Copy)]
pub(crate) struct Ended {
    pub forms: Forms,
    pub holder: Option<Holder>,
    pub length: usize,
}

// The reply block of an answer, written into the room left after the one before; where it ends. The block's
// link is known before it is written, since a command done is followed by the next one's block, refused or
// not.
fn add_block(
    answer: Result<Answer, Refusal>,
    next: Next,
    place: usize,
    memory: &[u8],
    room: &mut [u8],
) -> usize
    requires memory_len { length memory.now ≡ 65536 }
    requires answer_value { inside answer ≡ true }
    requires answer_bound { place + answer_size answer ≤ 12292 }
    requires in_bounds { 12292 ≤ length room.old }
    ensures value { result ≡ place + answer_size answer }
    ensures room_after { room.new ≡ put room.old place (block_of answer memory.now place (link_for next (place + answer_size answer))) }
{
    let end = place + block_size(answer);
    write_block(
        answer,
        place,
        link_to(next, end),
        memory,
        &mut room[place..],
    );
    end
}

// The chain of a message that is a sentence, carried out on the words. It was judged whole, so each block is
// only taken apart.
pub(crate) fn run_chain(
    c: Caller,
    s: &[u8],
    words: &mut [u64],
    memory: &mut [u8],
    room: &mut [u8],
) -> Ended
    requires words_len { length words.old ≡ 1605 }
    requires good { Good (tables_of words.old) }
    requires memory_len { length memory.old ≡ 65536 }
    requires s_len_bound { length s.now ≤ 8192 }
    requires in_bounds { 12292 ≤ length room.old }
    requires s_value { readable (blocks s.now) ≡ true }
    ensures finished { Finished room.old (run_chain c s.now (blocks s.now) (tables_of words.old) memory.old) result.forms result.holder result.length (tables_of words.new) memory.new room.new }
    ensures words_after { in_use_fit words.old ≡ true → in_use_fit words.new ≡ true }
{
    let mut command = wire::byte_at(s, COMMAND);
    let mut at: usize = FIRST;
    let mut place: usize = FIRST;
    let mut just = NOBODY;
    // By what follows each block, which is known behind it alone: no `for`.
    loop {
        let b = fields_at(s, command, at);
        let answer = perform_block(c, words, s, b, just, memory);
        let next = b.next;
        place = add_block(answer, next, place, memory, room);
        let Some(follower) = goes_on(answer, next) else {
            return Ended {
                forms: forms_after(answer),
                holder: holder_left(answer),
                length: place,
            };
        };
        command = follower.command;
        at = follower.at;
        just = opened_by(answer);
    }
}
