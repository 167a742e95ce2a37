// A core WRITE of count 0 (document 02, CR 3): 1/5, 1/33, 3/39, then the size. Nothing is changed before the last refusal has been
// ruled out.

ghost use Rattle.std.specs.Prelude.{◌≡◌, ◌≤◌, true, length};
ghost use Rattle.tables.specs.Words.{tables_of, in_use_fit};
ghost use Rattle.message.specs.Command.{between_sizes, do_set_size};
ghost use Rattle.message.specs.Contents.{sized_to};
ghost use Rattle.message.specs.Given.{Gives};
ghost use Rattle.invariants.specs.Sound.{Good};
ghost use Rattle.requests.specs.Leaves.{performed};
ghost use Rattle.requests.specs.Steps.{size_open, size_free};

use crate::barred::{ask_of, file_size, pass_locks};
use crate::who::reach_open;
use crate::writing::{change_file, grow};
use chain::block::WriteFields;
use locks::types::{Ask, Purpose};
use message::answer::Answer;
use message::caller::Caller;
use message::refusal::Refusal;
use records::Open;

// "for locks it covers the bytes between the old and the new size"
#[tactic(auto, unfolding(message::specs::Command::between_sizes))]
fn between_sizes(c: Caller, fid: u16, old: u64, new: u64) -> Ask
    ensures { result ≡ between_sizes c fid old new }
{
    if old < new {
        return ask_of(c, fid, old, new - old, Purpose::Write);
    }
    ask_of(c, fid, new, old - new, Purpose::Write)
}

// The size set: a file that has it already isn't changed (document 02, CR 8: "each WRITE of count 0 that alters the size").
#[tactic(auto, unfolding(message::specs::Contents::sized_to))]
fn size_to(words: &mut [u64], file: u8, size: usize)
    requires words_len { length words.old ≡ 1605 }
    requires file_bound { file ≤ 15 }
    ensures words_after { tables_of words.new ≡ sized_to (tables_of words.old) file size }
    ensures words_after_2 { in_use_fit words.old ≡ true → in_use_fit words.new ≡ true }
{
    if file_size(words, file) == size {
        return;
    }
    change_file(words, file, size);
}

// A size that no lock bars: "past 4,096 is 3/39", and "with zeros where it grows and no byte changed where it shrinks".
fn size_free(
    words: &mut [u64],
    f: WriteFields,
    file: u8,
    memory: &mut [u8],
) -> Result<Answer, Refusal>
    requires words_len { length words.old ≡ 1605 }
    requires good { Good (tables_of words.old) }
    requires file_bound { file ≤ 15 }
    requires memory_len { length memory.old ≡ 65536 }
    ensures gives { Gives (size_free (tables_of words.old) memory.old f file) (tables_of words.old) memory.old (performed result (tables_of words.new)) memory.new }
    ensures words_after { in_use_fit words.old ≡ true → in_use_fit words.new ≡ true }
{
    if 4096 < f.offset {
        return Err(Refusal::NoSpace);
    }
    let size = f.offset as usize;
    grow(words, file, size, memory);
    size_to(words, file, size);
    Ok(Answer::CoreWrote(0))
}

// The size set through an open that the caller may use: "or a write on access 0", then 1/33.
fn size_open(
    c: Caller,
    words: &mut [u64],
    f: WriteFields,
    o: Open,
    memory: &mut [u8],
) -> Result<Answer, Refusal>
    requires words_len { length words.old ≡ 1605 }
    requires good { Good (tables_of words.old) }
    requires file_bound { o.file ≤ 15 }
    requires memory_len { length memory.old ≡ 65536 }
    ensures gives { Gives (size_open c (tables_of words.old) memory.old f o) (tables_of words.old) memory.old (performed result (tables_of words.new)) memory.new }
    ensures words_after { in_use_fit words.old ≡ true → in_use_fit words.new ≡ true }
{
    if o.access == 0 {
        return Err(Refusal::NoAccess);
    }
    let old = file_size(words, o.file) as u64;
    let q = between_sizes(c, f.fid, old, f.offset);
    pass_locks(words, q)?;
    size_free(words, f, o.file, memory)
}

// A core WRITE block of count 0.
pub(crate) fn do_set_size(
    c: Caller,
    words: &mut [u64],
    f: WriteFields,
    memory: &mut [u8],
) -> Result<Answer, Refusal>
    requires words_len { length words.old ≡ 1605 }
    requires good { Good (tables_of words.old) }
    requires memory_len { length memory.old ≡ 65536 }
    ensures gives { Gives (do_set_size c (tables_of words.old) memory.old f) (tables_of words.old) memory.old (performed result (tables_of words.new)) memory.new }
    ensures words_after { in_use_fit words.old ≡ true → in_use_fit words.new ≡ true }
{
    let (o, _) = reach_open(c, words, f.fid)?;
    size_open(c, words, f, o, memory)
}
