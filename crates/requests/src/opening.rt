// OPEN_ANDX (document 02, CR 6): a file of the catalogue opened by its name. "Refusals, after 2/5: 2/65535 OpenMode, 1/12 access or sharing
// code, 1/2 name, 1/5 tree right, 1/32 sharing, 1/4 all 64 FIDs in use".

ghost use Rattle.std.specs.Prelude.{◌≡◌, ◌≤◌, true, length};
ghost use Rattle.lists.specs.Walk.{found};
ghost use Rattle.records.specs.Held.{names_of};
ghost use Rattle.tables.specs.Words.{tables_of, in_use_fit};
ghost use Rattle.catalogue.specs.Name.{is_named};
ghost use Rattle.message.specs.Command.{codes_served, open_by, open_file, open_named, do_open};
ghost use Rattle.invariants.specs.Sound.{Good};
ghost use Rattle.requests.specs.Leaves.{Leaves, performed};
ghost use Rattle.requests.specs.OpenPart.{open_told, open_added};

use crate::barred::file_size;
use crate::sharing::some_keeps_out;
use crate::who::reach_tree;
use catalogue::find::{find_name, name_file};
use chain::block::OpenFields;
use host::open::append_open;
use message::answer::Answer;
use message::caller::Caller;
use message::refusal::Refusal;
use numbers::column_words::free_fid;
use records::Open;
use soundness::tree_words::some_tree_holds;

// 1/12 otherwise: "access codes 0 to 2, sharing codes 1 to 4".
#[tactic(auto, unfolding(message::specs::Command::codes_served, soundness::specs::Sound::sharing_ok))]
fn codes_served(access: u8, sharing: u8) -> bool
    ensures { result ≡ codes_served access sharing }
{
    access <= 2 && 1 <= sharing && sharing <= 4
}

// The open that is asked for: the smallest free FID, the header's UID, TID and process, and the codes.
fn open_by(c: Caller, words: &[u64], f: OpenFields, file: u8) -> Open
    requires { length words.now ≡ 1605 }
    ensures { result ≡ open_by c (tables_of words.now) f file }
{
    let fid = free_fid(&words[130..707]);
    Open {
        fid,
        uid: c.uid,
        tid: c.tid,
        process: c.process,
        file,
        access: f.access,
        sharing: f.sharing,
        read: false,
        seen: 0,
    }
}

// "zero after the FID with the block's Flags bit 0 clear; with it set the size, the access and OpenResults 1".
#[tactic(auto, unfolding(crate::specs::OpenPart::open_told))]
fn open_told(f: OpenFields, fid: u16, size: usize) -> Answer
    ensures { result ≡ open_told f fid size }
{
    if f.full {
        Answer::Opened(fid, size, f.access, 1)
    } else {
        Answer::Opened(fid, 0, 0, 0)
    }
}

// The open put behind those in use: "1/4 all 64 FIDs in use".
fn add_open(words: &mut [u64], f: OpenFields, o: Open) -> Result<Answer, Refusal>
    requires words_len { length words.old ≡ 1605 }
    requires file_bound { o.file ≤ 15 }
    ensures leaves { Leaves (λ m. open_added (tables_of words.old) m f o) (tables_of words.old) (performed result (tables_of words.new)) }
    ensures words_after { in_use_fit words.old ≡ true → in_use_fit words.new ≡ true }
{
    if 64 <= words[130] {
        return Err(Refusal::NoFids);
    }
    let size = file_size(words, o.file);
    append_open(&mut words[130..707], o);
    Ok(open_told(f, o.fid, size))
}

// The file that the catalogue names: 1/5 where the tree doesn't permit the access, 1/32 where an open of the file stands against it.
fn open_file(c: Caller, words: &mut [u64], f: OpenFields, file: u8) -> Result<Answer, Refusal>
    requires words_len { length words.old ≡ 1605 }
    requires file_bound { file ≤ 15 }
    ensures leaves { Leaves (λ m. open_file c (tables_of words.old) m f file) (tables_of words.old) (performed result (tables_of words.new)) }
    ensures words_after { in_use_fit words.old ≡ true → in_use_fit words.new ≡ true }
{
    let o = open_by(c, words, f, file);
    if !some_tree_holds(&words[33..130], o) {
        return Err(Refusal::NoAccess);
    }
    if some_keeps_out(&words[130..707], file, f.access, f.sharing) {
        return Err(Refusal::BadShare);
    }
    add_open(words, f, o)
}

// The name looked up: 1/2 where the catalogue hasn't it.
fn open_named(c: Caller, words: &mut [u64], f: OpenFields, name: &[u8]) -> Result<Answer, Refusal>
    requires words_len { length words.old ≡ 1605 }
    requires good { Good (tables_of words.old) }
    ensures leaves { Leaves (λ m. open_named c (tables_of words.old) m f (found (is_named name.now) (names_of (tables_of words.old)))) (tables_of words.old) (performed result (tables_of words.new)) }
    ensures words_after { in_use_fit words.old ≡ true → in_use_fit words.new ≡ true }
{
    let k = find_name(&words[1380..1605], name).ok_or(Refusal::NoSuchFile)?;
    let file = name_file(&words[1380..1605], k);
    open_file(c, words, f, file)
}

// An OPEN block: its fields, and its name.
pub(crate) fn do_open(
    c: Caller,
    words: &mut [u64],
    f: OpenFields,
    name: &[u8],
) -> Result<Answer, Refusal>
    requires words_len { length words.old ≡ 1605 }
    requires good { Good (tables_of words.old) }
    ensures leaves { Leaves (λ m. do_open c (tables_of words.old) m f name.now) (tables_of words.old) (performed result (tables_of words.new)) }
    ensures words_after { in_use_fit words.old ≡ true → in_use_fit words.new ≡ true }
{
    reach_tree(c, words)?;
    if f.mode != 1 {
        return Err(Refusal::OpenMode);
    }
    if !codes_served(f.access, f.sharing) {
        return Err(Refusal::BadAccess);
    }
    open_named(c, words, f, name)
}
