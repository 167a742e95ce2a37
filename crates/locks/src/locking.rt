// A LOCKING request as a whole, on the words of the list: unlocks, then 1/87 over all locks, then
// conflicts in order, then 1/8. A refused request leaves the list untouched, its unlocks included.

ghost use Rattle.std.specs.Prelude.{◌≡◌, true, length, Some};
ghost use Rattle.tables.specs.Words.{word, lock_array, lock_limits, table_fits};
ghost use Rattle.tables.specs.Written.{locks_in};
ghost use Rattle.locks.specs.Answer.{file_in};
ghost use Rattle.locks.specs.Request.{ranges_of, after_releases, request, settle, locking};
ghost use Rattle.locks.specs.Changed.{Tried, Settles};

use crate::grant::some_passes;
use crate::grants::{append_locks, first_conflict, holder_at};
use crate::types::{LockRefusal, Request};
use crate::unlock::release_all;
use crate::wire_form::range_size;
use tables::copy::copy_words;
use tables::fit::in_use;

const LOCKS: usize = 128;

// How many locks are held; a count past the table's room counts the whole table.
fn held_in(words: &[u64]) -> usize
    requires { length words.now ≡ 641 }
    ensures { result ≡ length (locks_in words.now) }
{
    in_use(words, LOCKS)
}

// The request's locks, after its unlocks: all of them granted, or the words as they were.
fn grant_all(
    files: &[u8; 65],
    words: &mut [u64],
    q: Request,
    area: &[u8],
) -> Result<(), LockRefusal>
    requires { length words.old ≡ 641 }
    ensures settles { Settles words.old words.new result (settle (lock_array words.old) (word words.old 0) (after_releases (file_in files.now) q.fid q.shared (ranges_of q area.now q.unlocks q.locks) (Some (locks_in words.old)))) }
    ensures words_after { table_fits lock_limits 128 words.old ≡ true → table_fits lock_limits 128 words.new ≡ true }
{
    let from = q.unlocks as usize;
    let wanted = q.locks as usize;
    if some_passes(area, q.large, from, from + wanted) {
        return Err(LockRefusal::PassesEnd);
    }
    let held = held_in(words);
    if let Some(place) = first_conflict(files, words, held, q, area) {
        return Err(LockRefusal::Conflict(holder_at(words, held, q, area, place)));
    }
    if LOCKS - held < wanted {
        return Err(LockRefusal::NoRecord);
    }
    append_locks(words, held, q, area);
    Ok(())
}

// The request's unlocks and locks, on words that are thrown away if it is refused.
fn unlock_and_grant(
    files: &[u8; 65],
    words: &mut [u64],
    q: Request,
    area: &[u8],
) -> Result<(), LockRefusal>
    requires { length words.old ≡ 641 }
    ensures tried { Tried words.new result (settle (lock_array words.old) (word words.old 0) (request (file_in files.now) q.fid q.shared (ranges_of q area.now 0 q.unlocks) (ranges_of q area.now q.unlocks q.locks) (locks_in words.old))) }
    ensures words_after { table_fits lock_limits 128 words.old ≡ true → table_fits lock_limits 128 words.new ≡ true }
{
    let held = held_in(words);
    words[0] = held as u64;
    release_all(files, words, q, area)?;
    grant_all(files, words, q, area)
}

// The LOCKING request `q`, its ranges in an area that starts at the block's byte area. Without
// unlocks nothing changes before all is granted; with unlocks the words are kept, and brought back if
// it is refused.
pub fn lock_request(
    files: &[u8; 65],
    words: &mut [u64],
    q: Request,
    area: &[u8],
) -> Result<(), LockRefusal>
    requires { length words.old ≡ 641 }
    ensures settles { Settles words.old words.new result (locking (file_in files.now) (lock_array words.old) (word words.old 0) q area.now) }
    ensures words_after { table_fits lock_limits 128 words.old ≡ true → table_fits lock_limits 128 words.new ≡ true }
{
    let ranges = q.unlocks as usize + q.locks as usize;
    if area.len() != ranges * range_size(q.large) {
        return Err(LockRefusal::Malformed);
    }
    if q.unlocks == 0 {
        return grant_all(files, words, q, area);
    }
    let mut kept = [0u64; 641];
    copy_words(&mut kept, words);
    let ended = unlock_and_grant(files, words, q, area);
    if ended.is_err() {
        copy_words(words, &kept);
    }
    ended
}
