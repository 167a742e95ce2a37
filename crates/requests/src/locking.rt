// LOCKING: 2/65535, then the request as a whole, which is `locks::locking`'s.

ghost use Rattle.std.specs.Prelude.{◌≡◌, true, length};
ghost use Rattle.tables.specs.Words.{tables_of, in_use_fit};
ghost use Rattle.message.specs.Command.{served_type, request_of, do_locking};
ghost use Rattle.invariants.specs.Sound.{Good};
ghost use Rattle.requests.specs.Leaves.{Leaves, performed};
ghost use Rattle.requests.specs.LockPart.{lock_answer};
ghost use Rattle.requests.specs.Steps.{lock_settled, lock_open};

use crate::who::reach_open;
use chain::block::LockingFields;
use locks::locking::lock_request;
use locks::types::{LockRefusal, Request};
use message::answer::Answer;
use message::caller::Caller;
use message::refusal::Refusal;
use soundness::open_words::file_table;

// 2/65535 otherwise: "lock type bit other than 0x01 and 0x10".
#[tactic(auto, unfolding(message::specs::Command::served_type))]
fn served_type(kind: u8) -> bool
    ensures { result ≡ served_type kind }
{
    kind == 0 || kind == 1 || kind == 16 || kind == 17
}

// "Type bit 0x01 means shared"; bit 0x10 the larger form of a range. The ranges have the upper half of
// the caller's process.
#[tactic(auto, unfolding(message::specs::Command::request_of))]
fn request_of(c: Caller, f: LockingFields) -> Request
    ensures { result ≡ request_of c f }
{
    let high = (c.process / 65536) as u16;
    Request {
        fid: f.fid,
        high,
        shared: f.kind % 2 == 1,
        large: f.kind / 16 % 2 == 1,
        unlocks: f.unlocks,
        locks: f.locks,
    }
}

// "1/158 no such lock to release; 1/87 lock range passes 2^64; 1/33 lock conflict; 1/8 no lock record free". "C0000055
// for a lock refused" (document 02, CR 7). By name and not `From`: the clauses here speak of `lock_answer` of what was settled.
#[tactic(auto, unfolding(crate::specs::LockPart::lock_answer))]
pub(crate) fn lock_answer(outcome: Result<(), LockRefusal>) -> Result<Answer, Refusal>
    ensures { result ≡ lock_answer outcome }
{
    match outcome {
        Ok(()) => Ok(Answer::Locked),
        Err(LockRefusal::Malformed) => Err(Refusal::NotSentence),
        Err(LockRefusal::NoSuchLock) => Err(Refusal::NoSuchLock),
        Err(LockRefusal::PassesEnd) => Err(Refusal::PassesEnd),
        Err(LockRefusal::Conflict(h)) => Err(Refusal::LockNotGranted(h)),
        Err(LockRefusal::NoRecord) => Err(Refusal::NoRecord),
    }
}

// The request, over the files of the FIDs: all of it granted, or nothing changed.
pub(crate) fn settle(
    c: Caller,
    words: &mut [u64],
    f: LockingFields,
    area: &[u8],
) -> Result<(), LockRefusal>
    requires words_len { length words.old ≡ 1605 }
    requires good { Good (tables_of words.old) }
    ensures leaves { Leaves (λ m. lock_settled c (tables_of words.old) m f area.now) (tables_of words.old) (performed (lock_answer result) (tables_of words.new)) }
    ensures words_after { in_use_fit words.old ≡ true → in_use_fit words.new ≡ true }
{
    let files = file_table(&words[130..707]);
    let q = request_of(c, f);
    lock_request(&files, &mut words[707..1348], q, area)
}

// The request on an open that the caller may use; "locks need no access".
fn lock_open(c: Caller, words: &mut [u64], f: LockingFields, area: &[u8]) -> Result<Answer, Refusal>
    requires words_len { length words.old ≡ 1605 }
    requires good { Good (tables_of words.old) }
    ensures leaves { Leaves (λ m. lock_open c (tables_of words.old) m f area.now) (tables_of words.old) (performed result (tables_of words.new)) }
    ensures words_after { in_use_fit words.old ≡ true → in_use_fit words.new ≡ true }
{
    if !served_type(f.kind) {
        return Err(Refusal::LockType);
    }
    let outcome = settle(c, words, f, area);
    lock_answer(outcome)
}

// A LOCKING block: its fields, and its byte area.
pub(crate) fn do_locking(
    c: Caller,
    words: &mut [u64],
    f: LockingFields,
    area: &[u8],
) -> Result<Answer, Refusal>
    requires words_len { length words.old ≡ 1605 }
    requires good { Good (tables_of words.old) }
    ensures leaves { Leaves (λ m. do_locking c (tables_of words.old) m f area.now) (tables_of words.old) (performed result (tables_of words.new)) }
    ensures words_after { in_use_fit words.old ≡ true → in_use_fit words.new ≡ true }
{
    reach_open(c, words, f.fid)?;
    lock_open(c, words, f, area)
}
