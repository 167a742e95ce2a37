// Locks, in the words of their table: the rules of soundness for one record and for a pair. A FID's file is read off the table of
// files.

ghost use Rattle.std.specs.Prelude.{◌≡◌, true, cond, ◌&&◌, ◌+◌, ◌-◌, ◌%◌, ◌<◌, ◌≤◌, length, get_or, eqb};
ghost use Rattle.lists.specs.Walk.{all, rest};
ghost use Rattle.records.specs.Empty.{no_lock};
ghost use Rattle.locks.specs.Answer.{file_in};
ghost use Rattle.tables.specs.Words.{word, record_at, lock_array, lock_limits, table_fits};
ghost use Rattle.tables.specs.Written.{locks_in};
ghost use Rattle.soundness.specs.Sound.{agree, agree_all};
ghost use Rattle.soundness.specs.LockFits.{lock_fits};
ghost use Rattle.soundness.specs.InWords.{lock_stands};
ghost use Rattle.soundness.specs.AgreeLaws.{in_bounds, SharedFrom};

use locks::answer::file_in;
use locks::range::passes_end;
use records::Lock;
use tables::cut::low16;
use tables::lock::lock_at;

// Whether the words of a lock fit, its range does not pass 2^64, and its open exists.
fn lock_stands(files: &[u8], words: &[u64], i: usize) -> bool
    requires { (length words.now ≡ 641) × (i < 128) }
    ensures { result ≡ lock_stands files.now (record_at 5 words.now i) }
{
    let at = 1 + 5 * i;
    let fid = words[at] as usize;
    words[at + 4] <= 1
        && words[at + 1] <= 4294967295
        && !passes_end(words[at + 2], words[at + 3])
        && fid < files.len()
        && files[fid] != 255
}

// The rules for each lock in use by itself.
pub(crate) fn locks_fit(files: &[u8; 65], words: &[u64]) -> bool
    requires { (length files.now ≡ 65) × ((length words.now ≡ 641) × (word words.now 0 ≤ 128)) }
    ensures { result ≡ table_fits lock_limits 128 words.now && all (lock_fits (file_in files.now)) (locks_in words.now) }
{
    (0..words[0] as usize).all(|i| lock_stands(files, words, i))
}

// Whether a lock and the one whose word says so are both shared.
fn both_shared(shared: bool, flag: u64) -> bool
    ensures { result ≡ shared && eqb (flag % 2) 1 }
{
    shared && flag % 2 == 1
}

// The place behind the last exclusive lock, 0 where all are shared. Two shared locks may always stand together, so a shared lock
// is compared with those before that place alone: with 128 shared ones no pair is looked at.
fn exclusives_end(words: &[u64]) -> usize
    requires { (length words.now ≡ 641) × (word words.now 0 ≤ 128) }
    ensures { SharedFrom (lock_array words.now) (word words.now 0) result }
{
    for i in (0..words[0] as usize).rev() {
        if words[5 * i + 5] % 2 != 1 {
            return i + 1;
        }
    }
    0
}

// How far a lock is compared.
fn compared_to(shared: bool, exclusives: usize, count: usize) -> usize
    ensures { result ≡ cond shared exclusives count }
{
    if shared { exclusives } else { count }
}

// Whether the lock of that file, which ends with byte `last`, and the record at a place may stand together. Of 128 exclusive
// locks there are 8,128 pairs, and most lie apart, which the words tell as they stand.
fn agrees_at(files: &[u8; 65], words: &[u64], l: Lock, last: u64, file: u8, j: usize) -> bool
    requires words_len { (length words.now ≡ 641) × (j < 128) }
    requires length_nonzero { (0 < l.length) × (last ≡ l.offset + (l.length - 1)) }
    requires no_lock_value { in_bounds (get_or (lock_array words.now) j no_lock) ≡ true }
    requires file_value { file ≡ file_in files.now l.fid }
    ensures { result ≡ agree (file_in files.now) l (get_or (lock_array words.now) j no_lock) }
{
    let at = 1 + 5 * j;
    let first = words[at + 2];
    if last < first {
        return true;
    }
    if both_shared(l.shared, words[at + 4]) {
        return true;
    }
    let count = words[at + 3];
    if count == 0 {
        return true;
    }
    if first + (count - 1) < l.offset {
        return true;
    }
    file != file_in(files, low16(words[at]))
}

// Whether the lock at a place may stand with each behind it; from `exclusives` on all are shared.
fn agrees_later(files: &[u8; 65], words: &[u64], exclusives: usize, i: usize) -> bool
    requires words_len { (length words.now ≡ 641) × ((word words.now 0 ≤ 128) × (i < word words.now 0)) }
    requires words_value { all in_bounds (locks_in words.now) ≡ true }
    requires shared_from { SharedFrom (lock_array words.now) (word words.now 0) exclusives }
    ensures { result ≡ all (agree (file_in files.now) (get_or (lock_array words.now) i no_lock)) (rest (lock_array words.now) (word words.now 0) (i + 1)) }
{
    let l = lock_at(words, i);
    if l.length == 0 {
        return true;
    }
    let last = l.offset + (l.length - 1);
    let file = file_in(files, l.fid);
    let end = compared_to(l.shared, exclusives, words[0] as usize);
    for j in i + 1..end {
        if !agrees_at(files, words, l, last, file, j) {
            return false;
        }
    }
    true
}

// Whether every two of the locks held may stand together: "two locks of one file that overlap are both shared".
pub(crate) fn locks_agree(files: &[u8; 65], words: &[u64]) -> bool
    requires words_len { (length words.now ≡ 641) × (word words.now 0 ≤ 128) }
    requires words_value { all in_bounds (locks_in words.now) ≡ true }
    ensures { result ≡ agree_all (file_in files.now) (locks_in words.now) }
{
    let exclusives = exclusives_end(words);
    for i in 0..words[0] as usize {
        if !agrees_later(files, words, exclusives, i) {
            return false;
        }
    }
    true
}
