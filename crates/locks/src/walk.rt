// The walk from the front of the lock list to the first lock that answers, over the words that hold
// the list. What tells most locks off is tested on the words as they stand, before a record is put
// together: the overlap, and for an unlock offset and length.

ghost use Rattle.std.specs.Prelude.{◌≡◌, ◌<◌, length, get_or};
ghost use Rattle.lists.specs.Walk.{found};
ghost use Rattle.records.specs.Empty.{no_lock};
ghost use Rattle.tables.specs.Words.{lock_array};
ghost use Rattle.tables.specs.Written.{locks_in};
ghost use Rattle.locks.specs.Answer.{file_in, in_way, named, answers};

use crate::answer::{in_way, is_named};
use crate::range::overlap;
use crate::types::{Ask, Purpose};
use tables::fit::in_use;
use tables::lock::lock_at;

// Whether the lock at a place stands in the way of what is asked.
fn stands_in_way(files: &[u8; 65], words: &[u64], i: usize, q: Ask) -> bool
    requires { (length words.now ≡ 641) × (i < 128) }
    ensures { result ≡ in_way (file_in files.now) q (get_or (lock_array words.now) i no_lock) }
{
    let at = 1 + 5 * i;
    if !overlap(words[at + 2], words[at + 3], q.offset, q.length) {
        return false;
    }
    in_way(files, q, lock_at(words, i))
}

// Whether the lock at a place is the one that an unlock names.
fn named_at(words: &[u64], i: usize, q: Ask) -> bool
    requires { (length words.now ≡ 641) × (i < 128) }
    ensures { result ≡ named q (get_or (lock_array words.now) i no_lock) }
{
    let at = 1 + 5 * i;
    if words[at + 2] != q.offset {
        return false;
    }
    is_named(q, lock_at(words, i))
}

// Whether the lock at a place answers what is asked.
#[tactic(auto, unfolding(crate::specs::Answer::answers, crate::specs::Answer::answers_for))]
fn answers_at(files: &[u8; 65], words: &[u64], i: usize, q: Ask) -> bool
    requires { (length words.now ≡ 641) × (i < 128) }
    ensures { result ≡ answers (file_in files.now) q (get_or (lock_array words.now) i no_lock) }
{
    match q.purpose {
        Purpose::Release => named_at(words, i, q),
        _ => stands_in_way(files, words, i, q),
    }
}

// The place of the first listed lock that answers what is asked.
pub fn first_answer(files: &[u8; 65], words: &[u64], q: Ask) -> Option<usize>
    requires { length words.now ≡ 641 }
    ensures { result ≡ found (answers (file_in files.now) q) (locks_in words.now) }
{
    for i in 0..in_use(words, 128) {
        if answers_at(files, words, i, q) {
            return Some(i);
        }
    }
    None
}
