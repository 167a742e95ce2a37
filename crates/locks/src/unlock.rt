// Unlocks in the words of the list: "Unlocks go first, in order: each removes the earliest listed
// lock with equal FID, process, offset and length."

ghost use Rattle.std.specs.Prelude.{◌≡◌, true, ◌-◌, ◌<◌, ◌≤◌, length};
ghost use Rattle.lists.specs.Stored.{stored};
ghost use Rattle.records.specs.Empty.{no_lock};
ghost use Rattle.tables.specs.Words.{word, lock_array, lock_limits, table_fits};
ghost use Rattle.tables.specs.Written.{locks_in};
ghost use Rattle.locks.specs.Answer.{file_in};
ghost use Rattle.locks.specs.Request.{ranges_of, remove_at, release_all};
ghost use Rattle.locks.specs.Changed.{Unlocks};

use crate::grant::ask_of;
use crate::types::{LockRefusal, Purpose, Request};
use crate::walk::first_answer;
use crate::wire_form::range_of;
use records::Lock;
use tables::lock::{lock_at, put_lock};
use tables::record::Record;

// The record at a place taken out: those behind it move forward, and the last is emptied.
fn remove_at(words: &mut [u64], place: usize)
    requires { (length words.old ≡ 641) × ((place < word words.old 0) × (word words.old 0 ≤ 128)) }
    ensures words_after { lock_array words.new ≡ stored no_lock (lock_array words.old) (word words.old 0) (remove_at place (locks_in words.old)) }
    ensures words_after_2 { word words.new 0 ≡ word words.old 0 - 1 }
    ensures words_after_3 { table_fits lock_limits 128 words.old ≡ true → table_fits lock_limits 128 words.new ≡ true }
{
    let count = words[0] as usize;
    for i in place + 1..count {
        let l = lock_at(words, i);
        put_lock(words, i - 1, l);
    }
    put_lock(words, count - 1, Lock::EMPTY);
    words[0] = (count - 1) as u64;
}

// The unlocks of a request, in order: the first ranges of the area. Where one names no lock, the words are left as they are then.
pub(crate) fn release_all(
    files: &[u8; 65],
    words: &mut [u64],
    q: Request,
    area: &[u8],
) -> Result<(), LockRefusal>
    requires { (length words.old ≡ 641) × (word words.old 0 ≤ 128) }
    ensures unlocks { Unlocks (release_all (file_in files.now) q.fid (ranges_of q area.now 0 q.unlocks) (locks_in words.old)) words.old words.new result }
    ensures words_after { table_fits lock_limits 128 words.old ≡ true → table_fits lock_limits 128 words.new ≡ true }
{
    for k in 0..q.unlocks as usize {
        let r = range_of(area, q, k);
        let Some(place) = first_answer(files, words, ask_of(q.fid, Purpose::Release, r)) else {
            return Err(LockRefusal::NoSuchLock);
        };
        remove_at(words, place);
    }
    Ok(())
}
