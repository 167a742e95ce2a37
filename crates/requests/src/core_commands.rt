// The core commands (document 02, CR 3): "the rules of their AndX counterparts", each with a reply block of its own.

ghost use Rattle.std.specs.Prelude.{◌≡◌, true, length};
ghost use Rattle.tables.specs.Words.{tables_of, in_use_fit};
ghost use Rattle.locks.specs.Wire.{small_form};
ghost use Rattle.message.specs.Command.{as_core, range_by, one_range, do_range};
ghost use Rattle.invariants.specs.Sound.{Good};
ghost use Rattle.requests.specs.CorePart.{core_answer, formed};
ghost use Rattle.requests.specs.Leaves.{Leaves, performed};
ghost use Rattle.requests.specs.Steps.{lock_open};

use crate::locking::{lock_answer, settle};
use crate::who::reach_open;
use chain::block::{LockingFields, RangeFields};
use locks::types::LockRange;
use locks::wire_form::small_form;
use message::answer::Answer;
use message::caller::Caller;
use message::refusal::Refusal;

// What the counterpart answers, in the core command's reply block.
#[tactic(auto, unfolding(crate::specs::CorePart::core_answer))]
fn core_answer(a: Answer) -> Answer
    ensures { result ≡ core_answer a }
{
    match a {
        Answer::Locked => Answer::Plain,
        Answer::Read(place, count) => Answer::CoreRead(place, count),
        Answer::Wrote(count) => Answer::CoreWrote(count),
        _ => a,
    }
}

// An answer in the reply block that a command has.
#[tactic(auto, unfolding(crate::specs::CorePart::formed))]
pub(crate) fn in_form(core: bool, a: Answer) -> Answer
    ensures { result ≡ formed core a }
{
    if core { core_answer(a) } else { a }
}

// "the process from the header"
#[tactic(auto, unfolding(message::specs::Command::range_by))]
fn range_by(c: Caller, f: RangeFields) -> LockRange
    ensures { result ≡ range_by c f }
{
    LockRange {
        process: c.process,
        offset: f.offset,
        length: f.length,
    }
}

// The one range, through an open that the caller may use: its area is its 10-byte form. "the lock is exclusive": lock type 0. How many ranges are
// unlocked and locked are two numbers, as the definitions `one_range` and `do_range` have them.
fn range_open(
    c: Caller,
    words: &mut [u64],
    f: RangeFields,
    unlocks: u16,
    locks: u16,
) -> Result<Answer, Refusal>
    requires words_len { length words.old ≡ 1605 }
    requires good { Good (tables_of words.old) }
    ensures leaves { Leaves (λ m. as_core (lock_open c (tables_of words.old) m (one_range f unlocks locks) (small_form (range_by c f)))) (tables_of words.old) (performed result (tables_of words.new)) }
    ensures words_after { in_use_fit words.old ≡ true → in_use_fit words.new ≡ true }
{
    let area = small_form(range_by(c, f));
    let one = LockingFields {
        fid: f.fid,
        kind: 0,
        unlocks,
        locks,
    };
    let outcome = settle(c, words, one, &area);
    let answer = lock_answer(outcome)?;
    Ok(core_answer(answer))
}

// A LOCK_BYTE_RANGE or UNLOCK_BYTE_RANGE block: the LOCKING of one range.
pub(crate) fn do_range(
    c: Caller,
    words: &mut [u64],
    f: RangeFields,
    unlocks: u16,
    locks: u16,
) -> Result<Answer, Refusal>
    requires words_len { length words.old ≡ 1605 }
    requires good { Good (tables_of words.old) }
    ensures leaves { Leaves (λ m. do_range c (tables_of words.old) m f unlocks locks) (tables_of words.old) (performed result (tables_of words.new)) }
    ensures words_after { in_use_fit words.old ≡ true → in_use_fit words.new ≡ true }
{
    reach_open(c, words, f.fid)?;
    range_open(c, words, f, unlocks, locks)
}
