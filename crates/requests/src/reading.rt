// READ: 1/5, 1/33, then the file's bytes, which are not copied out: the answer says where they stand. The open then remembers the file's
// change number (document 02, CR 8).

ghost use Rattle.std.specs.Prelude.{◌≡◌, ◌≤◌, true, length};
ghost use Rattle.records.specs.Change.{changes_of, with_read};
ghost use Rattle.tables.specs.Words.{tables_of, in_use_fit};
ghost use Rattle.message.specs.Command.{do_read};
ghost use Rattle.invariants.specs.Sound.{Good};
ghost use Rattle.requests.specs.Leaves.{Leaves, performed};
ghost use Rattle.requests.specs.Reach.{Stands};
ghost use Rattle.requests.specs.ReadPart.{read_part};
ghost use Rattle.requests.specs.Steps.{read_open};

use crate::barred::{ask_of, file_size, pass_locks};
use crate::who::reach_open;
use chain::block::ReadFields;
use locks::types::Purpose;
use message::answer::Answer;
use message::caller::Caller;
use message::refusal::Refusal;
use numbers::number::at_most;
use records::Open;
use tables::file::changes_at;
use tables::open::put_open;

// "It yields the file's bytes in the range below its size": where they stand in the file memory, and how many.
#[tactic(auto, unfolding(crate::specs::ReadPart::read_part))]
fn read_part(words: &[u64], file: u8, offset: u64, max: u16) -> Answer
    requires words_len { length words.now ≡ 1605 }
    requires good { Good (tables_of words.now) }
    requires file_bound { file ≤ 15 }
    ensures { result ≡ read_part (tables_of words.now) file offset max }
{
    let size = file_size(words, file);
    let at = offset as usize;
    if size <= at {
        return Answer::Read(0, 0);
    }
    let start = file as usize * 4096;
    let place = start + at;
    let count = at_most(max as usize, size - at);
    Answer::Read(place, count)
}

// "Each open remembers the number at its last granted read": the open, at its place, with its file's number.
fn remember(words: &mut [u64], o: Open, place: usize)
    requires words_len { length words.old ≡ 1605 }
    requires good { Good (tables_of words.old) }
    requires stands { Stands (tables_of words.old) o.fid o place }
    ensures words_after { tables_of words.new ≡ with_read (tables_of words.old) o.fid (changes_of (tables_of words.old) o.file) }
    ensures words_after_2 { in_use_fit words.old ≡ true → in_use_fit words.new ≡ true }
{
    let seen = changes_at(&words[1348..1380], o.file as usize);
    let noted = Open {
        read: true,
        seen,
        ..o
    };
    put_open(&mut words[130..707], place, noted);
}

// A read on an open that the caller may use: "1/5 is a read on access 1", then 1/33.
fn read_open(
    c: Caller,
    words: &mut [u64],
    f: ReadFields,
    o: Open,
    place: usize,
) -> Result<Answer, Refusal>
    requires words_len { length words.old ≡ 1605 }
    requires good { Good (tables_of words.old) }
    requires stands { Stands (tables_of words.old) f.fid o place }
    ensures leaves { Leaves (λ m. read_open c (tables_of words.old) m f o) (tables_of words.old) (performed result (tables_of words.new)) }
    ensures words_after { in_use_fit words.old ≡ true → in_use_fit words.new ≡ true }
{
    if o.access == 1 {
        return Err(Refusal::NoAccess);
    }
    let q = ask_of(c, f.fid, f.offset, f.max as u64, Purpose::Read);
    pass_locks(words, q)?;
    let answer = read_part(words, o.file, f.offset, f.max);
    remember(words, o, place);
    Ok(answer)
}

// A READ block.
pub(crate) fn do_read(c: Caller, words: &mut [u64], f: ReadFields) -> Result<Answer, Refusal>
    requires words_len { length words.old ≡ 1605 }
    requires good { Good (tables_of words.old) }
    ensures leaves { Leaves (λ m. do_read c (tables_of words.old) m f) (tables_of words.old) (performed result (tables_of words.new)) }
    ensures words_after { in_use_fit words.old ≡ true → in_use_fit words.new ≡ true }
{
    let (o, place) = reach_open(c, words, f.fid)?;
    read_open(c, words, f, o, place)
}
