// WRITE: 1/5, 1/33, 3/39, then the bytes. Nothing is written before the last refusal has been ruled out.

ghost use Rattle.std.specs.Prelude.{◌≡◌, ◌+◌, ◌-◌, ◌<◌, ◌≤◌, max, true, length, replicate};
ghost use Rattle.lists.specs.Put.{put};
ghost use Rattle.records.specs.Change.{with_change};
ghost use Rattle.tables.specs.Words.{tables_of, in_use_fit};
ghost use Rattle.message.specs.Command.{ends_past, do_write};
ghost use Rattle.message.specs.Contents.{size_of, grown, written};
ghost use Rattle.message.specs.Given.{Gives};
ghost use Rattle.invariants.specs.Sound.{Good};
ghost use Rattle.requests.specs.Leaves.{performed};
ghost use Rattle.requests.specs.Steps.{write_open, write_free};

use crate::barred::{ask_of, file_size, pass_locks};
use crate::who::reach_open;
use chain::block::WriteFields;
use locks::types::Purpose;
use message::answer::Answer;
use message::caller::Caller;
use message::refusal::Refusal;
use records::Open;
use tables::file::put_change;
use wire::fill::{clear, lay};

// "write would end past 4,096", and "Length 0 writes nothing .. and is done at any offset".
fn ends_past(offset: u64, count: u16) -> bool
    ensures { result ≡ ends_past offset count }
{
    if count == 0 {
        return false;
    }
    if 4096 < offset {
        return true;
    }
    4096 - offset < count as u64
}

// Zeros from one place up to another, where that lies further on.
fn clear_gap(room: &mut [u8], from: usize, to: usize)
    requires { to ≤ length room.old }
    ensures { room.new ≡ put room.old from (replicate (to - from) 0) }
{
    if from < to {
        clear(&mut room[from..to]);
    }
}

// Zeros from the file's size up to a place in it, where that lies further on.
pub(crate) fn grow(words: &[u64], file: u8, end: usize, memory: &mut [u8])
    requires words_len { length words.now ≡ 1605 }
    requires good { Good (tables_of words.now) }
    requires file_bound { file ≤ 15 }
    requires memory_len { length memory.old ≡ 65536 }
    requires end_bound { end ≤ 4096 }
    ensures { memory.new ≡ grown (tables_of words.now) memory.old file end }
{
    let start = file as usize * 4096;
    let from = start + file_size(words, file);
    let to = start + end;
    clear_gap(memory, from, to);
}

// "Bytes between the old size and the write become 0", then the bytes written.
fn write_bytes(words: &[u64], file: u8, offset: usize, source: &[u8], memory: &mut [u8])
    requires words_len { length words.now ≡ 1605 }
    requires good { Good (tables_of words.now) }
    requires file_bound { file ≤ 15 }
    requires memory_len { length memory.old ≡ 65536 }
    requires source_bound { offset + length source.now ≤ 4096 }
    requires source_nonzero { 0 < length source.now }
    ensures { memory.new ≡ written (tables_of words.now) memory.old file offset source.now }
{
    grow(words, file, offset, memory);
    let at = file as usize * 4096 + offset;
    lay(source, &mut memory[at..]);
}

// A file changed: its size set, its change number raised (document 02, CR 8).
pub(crate) fn change_file(words: &mut [u64], file: u8, size: usize)
    requires words_len { length words.old ≡ 1605 }
    requires file_bound { file ≤ 15 }
    ensures words_after { tables_of words.new ≡ with_change (tables_of words.old) file size }
    ensures words_after_2 { in_use_fit words.old ≡ true → in_use_fit words.new ≡ true }
{
    let at = file as usize;
    put_change(&mut words[1348..1380], at, size);
}

// "and a size below the write's end becomes that end".
fn raise_size(words: &mut [u64], file: u8, end: usize)
    requires words_len { length words.old ≡ 1605 }
    requires file_bound { file ≤ 15 }
    ensures words_after { tables_of words.new ≡ with_change (tables_of words.old) file (max (size_of (tables_of words.old) file) end) }
    ensures words_after_2 { in_use_fit words.old ≡ true → in_use_fit words.new ≡ true }
{
    let size = file_size(words, file).max(end);
    change_file(words, file, size);
}

// A write that no lock bars.
fn write_free(
    words: &mut [u64],
    f: WriteFields,
    file: u8,
    source: &[u8],
    memory: &mut [u8],
) -> Result<Answer, Refusal>
    requires words_len { length words.old ≡ 1605 }
    requires good { Good (tables_of words.old) }
    requires file_bound { file ≤ 15 }
    requires memory_len { length memory.old ≡ 65536 }
    requires source_len { length source.now ≡ f.count }
    ensures gives { Gives (write_free (tables_of words.old) memory.old f file source.now) (tables_of words.old) memory.old (performed result (tables_of words.new)) memory.new }
    ensures words_after { in_use_fit words.old ≡ true → in_use_fit words.new ≡ true }
{
    if ends_past(f.offset, f.count) {
        return Err(Refusal::NoSpace);
    }
    if f.count == 0 {
        return Ok(Answer::Wrote(0));
    }
    let at = f.offset as usize;
    write_bytes(words, file, at, source, memory);
    raise_size(words, file, at + f.count as usize);
    Ok(Answer::Wrote(f.count))
}

// A write on an open that the caller may use: "or a write on access 0", then 1/33.
fn write_open(
    c: Caller,
    words: &mut [u64],
    f: WriteFields,
    o: Open,
    source: &[u8],
    memory: &mut [u8],
) -> Result<Answer, Refusal>
    requires words_len { length words.old ≡ 1605 }
    requires good { Good (tables_of words.old) }
    requires file_bound { o.file ≤ 15 }
    requires memory_len { length memory.old ≡ 65536 }
    requires source_len { length source.now ≡ f.count }
    ensures gives { Gives (write_open c (tables_of words.old) memory.old f source.now o) (tables_of words.old) memory.old (performed result (tables_of words.new)) memory.new }
    ensures words_after { in_use_fit words.old ≡ true → in_use_fit words.new ≡ true }
{
    if o.access == 0 {
        return Err(Refusal::NoAccess);
    }
    let q = ask_of(c, f.fid, f.offset, f.count as u64, Purpose::Write);
    pass_locks(words, q)?;
    write_free(words, f, o.file, source, memory)
}

// A WRITE block, and its data.
pub(crate) fn do_write(
    c: Caller,
    words: &mut [u64],
    f: WriteFields,
    source: &[u8],
    memory: &mut [u8],
) -> Result<Answer, Refusal>
    requires words_len { length words.old ≡ 1605 }
    requires good { Good (tables_of words.old) }
    requires memory_len { length memory.old ≡ 65536 }
    requires source_len { length source.now ≡ f.count }
    ensures gives { Gives (do_write c (tables_of words.old) memory.old f source.now) (tables_of words.old) memory.old (performed result (tables_of words.new)) memory.new }
    ensures words_after { in_use_fit words.old ≡ true → in_use_fit words.new ≡ true }
{
    let (o, _) = reach_open(c, words, f.fid)?;
    write_open(c, words, f, o, source, memory)
}
