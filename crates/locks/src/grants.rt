// Locks in the words of the list: "Then locks in order, each against the list as it stands, the
// asker's own locks included, however long it gets". The request's own earlier ranges are read again
// from the message, so that the words change only once all are granted. `words`, `held`, `q` and `area` are handed on by themselves and
// not as one struct: `append_locks` writes the words that the others only read.

ghost use Rattle.std.specs.Prelude.{◌≡◌, true, ◌++◌, map, ◌+◌, ◌-◌, ◌<◌, ◌≤◌, length, take};
ghost use Rattle.lists.specs.Walk.{found};
ghost use Rattle.lists.specs.Stored.{stored};
ghost use Rattle.records.specs.Empty.{no_lock};
ghost use Rattle.tables.specs.Words.{word, lock_array, lock_limits, records_fit, table_fits};
ghost use Rattle.tables.specs.Written.{locks_in};
ghost use Rattle.locks.specs.Answer.{file_in};
ghost use Rattle.locks.specs.Wire.{ranges_at};
ghost use Rattle.locks.specs.Request.{ranges_of, lock_of, holder_at, grant_all};
ghost use Rattle.locks.specs.Blocked.{range_meets, blocked_at, conflict_of};

use crate::grant::{ask_of, lock_of};
use crate::range::overlap;
use crate::types::{Ask, Holder, Purpose, Request};
use crate::walk::first_answer;
use crate::wire_form::{range_at, range_of};
use tables::lock::{lock_at, put_lock};

// The first of the ranges from..to that overlaps what is asked.
fn first_overlap(area: &[u8], large: bool, from: usize, to: usize, q: Ask) -> Option<usize>
    requires { (from ≤ to) × (to < 131072) }
    ensures { result ≡ found (range_meets q.offset q.length) (ranges_at large area.now from (to - from)) }
{
    for k in from..to {
        let r = range_at(area, large, k);
        if overlap(r.offset, r.length, q.offset, q.length) {
            return Some(k - from);
        }
    }
    None
}

// The first listed lock that stands in the way of range k, in the words or among the request's own
// earlier ranges, which follow those. These are of the same file and shared all or exclusive all, as
// range k is: shared ones are never in its way, and each exclusive one that overlaps it is.
fn conflict_of(
    files: &[u8; 65],
    words: &[u64],
    held: usize,
    q: Request,
    area: &[u8],
    k: usize,
) -> Option<usize>
    requires words_len { (length words.now ≡ 641) × (held ≡ length (locks_in words.now)) }
    requires unlocks_le_k { (q.unlocks ≤ k) × (k < 131072) }
    ensures { result ≡ conflict_of (file_in files.now) q area.now k (locks_in words.now) }
{
    let from = q.unlocks as usize;
    let ask = ask_of(q.fid, Purpose::Grant(q.shared), range_of(area, q, k));
    if let Some(place) = first_answer(files, words, ask) {
        return Some(place);
    }
    if q.shared {
        return None;
    }
    let own = first_overlap(area, q.large, from, k, ask)?;
    Some(held + own)
}

// The place of the first lock in the way of the request's locks, taken in order.
pub(crate) fn first_conflict(
    files: &[u8; 65],
    words: &[u64],
    held: usize,
    q: Request,
    area: &[u8],
) -> Option<usize>
    requires { (length words.now ≡ 641) × (held ≡ length (locks_in words.now)) }
    ensures { result ≡ blocked_at (grant_all (file_in files.now) q.fid q.shared (ranges_of q area.now q.unlocks q.locks) (locks_in words.now)) }
{
    let from = q.unlocks as usize;
    let to = from + q.locks as usize;
    for k in from..to {
        if let Some(place) = conflict_of(files, words, held, q, area, k) {
            return Some(place);
        }
    }
    None
}

// Who holds the lock at a place: a listed one, or, behind those, the lock of one of the request's own
// ranges.
pub(crate) fn holder_at(words: &[u64], held: usize, q: Request, area: &[u8], place: usize) -> Holder
    requires words_len { (length words.now ≡ 641) × (held ≡ length (locks_in words.now)) }
    requires place_bound { place < held + q.locks }
    ensures { result ≡ holder_at (locks_in words.now ++ map (lock_of q.fid q.shared) (ranges_of q area.now q.unlocks q.locks)) place }
{
    if place < held {
        return Holder {
            lock: lock_at(words, place),
            place,
        };
    }
    let own = q.unlocks as usize + (place - held);
    Holder {
        lock: lock_of(q.fid, q.shared, range_of(area, q, own)),
        place,
    }
}

// The request's locks, written behind the first `held` records, and the count.
pub(crate) fn append_locks(words: &mut [u64], held: usize, q: Request, area: &[u8])
    requires { (length words.old ≡ 641) × (held + q.locks ≤ 128) }
    ensures words_after { lock_array words.new ≡ stored no_lock (lock_array words.old) held (take held (lock_array words.old) ++ map (lock_of q.fid q.shared) (ranges_of q area.now q.unlocks q.locks)) }
    ensures words_after_2 { word words.new 0 ≡ held + q.locks }
    ensures words_after_3 { records_fit lock_limits held words.old ≡ true → table_fits lock_limits 128 words.new ≡ true }
{
    let from = q.unlocks as usize;
    let to = from + q.locks as usize;
    for k in from..to {
        let at = held + (k - from);
        put_lock(words, at, lock_of(q.fid, q.shared, range_of(area, q, k)));
    }
    words[0] = (held + (to - from)) as u64;
}
