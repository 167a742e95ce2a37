// The lock in the way of a read or a write, and the size of its file.

ghost use Rattle.std.specs.Prelude.{◌≡◌, ◌<◌, ◌≤◌, length};
ghost use Rattle.records.specs.Held.{locks_of};
ghost use Rattle.tables.specs.Words.{tables_of};
ghost use Rattle.locks.specs.Request.{holder_at};
ghost use Rattle.message.specs.Command.{ask_by, barring};
ghost use Rattle.message.specs.Contents.{size_of};
ghost use Rattle.message.specs.declared.refusal.Refusal.TheVariants.{FileLockConflict};
ghost use Rattle.invariants.specs.Sound.{Good};
ghost use Rattle.requests.specs.BarPart.{locks_passed};

use locks::types::{Ask, Holder, Purpose};
use locks::walk::first_answer;
use message::caller::Caller;
use message::refusal::Refusal;
use soundness::open_words::file_table;
use tables::file::size_at;
use tables::lock::lock_at;

// "Locks: process from the range; reads and writes: from the header."
#[tactic(auto, unfolding(message::specs::Command::ask_by))]
pub(crate) fn ask_of(c: Caller, fid: u16, offset: u64, length: u64, purpose: Purpose) -> Ask
    ensures { result ≡ ask_by c fid offset length purpose }
{
    Ask {
        fid,
        process: c.process,
        offset,
        length,
        purpose,
    }
}

// The first listed lock in the way: 1/33. Where no lock is held no table of files is made.
fn first_bar(words: &[u64], q: Ask) -> Option<usize>
    requires words_len { length words.now ≡ 1605 }
    requires good { Good (tables_of words.now) }
    ensures { result ≡ barring (tables_of words.now) q }
{
    if words[707] == 0 {
        return None;
    }
    let files = file_table(&words[130..707]);
    first_answer(&files, &words[707..1348], q)
}

// The listed lock at that place is the holder: "C0000054 for a read or write refused" (document 02, CR 7).
fn refuse_for(words: &[u64], place: usize) -> Refusal
    requires words_len { length words.now ≡ 1605 }
    requires place_in_bounds { place < length (locks_of (tables_of words.now)) }
    ensures { result ≡ FileLockConflict (holder_at (locks_of (tables_of words.now)) place) }
{
    let lock = lock_at(&words[707..1348], place);
    Refusal::FileLockConflict(Holder { lock, place })
}

// 1/33 where a lock is in the way of what is asked.
#[tactic(auto, unfolding(crate::specs::BarPart::locks_passed, crate::specs::BarPart::passed_by))]
pub(crate) fn pass_locks(words: &[u64], q: Ask) -> Result<(), Refusal>
    requires words_len { length words.now ≡ 1605 }
    requires good { Good (tables_of words.now) }
    ensures { result ≡ locks_passed (tables_of words.now) q }
{
    match first_bar(words, q) {
        Some(place) => Err(refuse_for(words, place)),
        None => Ok(()),
    }
}

// A file's size.
#[tactic(auto, unfolding(message::specs::Contents::size_of, tables::specs::Words::tables_of))]
pub(crate) fn file_size(words: &[u64], file: u8) -> usize
    requires words_len { length words.now ≡ 1605 }
    requires file_bound { file ≤ 15 }
    ensures { result ≡ size_of (tables_of words.now) file }
{
    size_at(&words[1348..1380], file as usize)
}
