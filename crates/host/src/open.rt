// An open added in the words.

ghost use Rattle.std.specs.Prelude.{◌≡◌, true, ◌<◌, length};
ghost use Rattle.records.specs.Empty.{no_open};
ghost use Rattle.tables.specs.Words.{word, open_array, open_limits, tables_of};
ghost use Rattle.soundness.specs.Sound.{sound};
ghost use Rattle.host.specs.HostCall.{add_open};
ghost use Rattle.host.specs.OnWords.{on_words, Left, Appended};

use crate::answer::{Given, HostRefusal};
use crate::append::append;
use numbers::column_words::free_fid;
use records::Open;
use soundness::tree_words::{some_tree_holds, some_tree_is};
use soundness::whole::is_sound;

// "opens by the host deny nothing" (document 02, CR 6).
const DENY_NONE: u8 = 4;

// An open behind those in use.
pub fn append_open(words: &mut [u64], o: Open)
    requires { (length words.old ≡ 577) × (word words.old 0 < 64) }
    ensures { Appended open_array open_limits 64 no_open words.old words.new o }
{
    append(words, o);
}

// An open in sound tables.
fn add_sound(words: &mut [u64], uid: u16, tid: u16, process: u32, file: u8, access: u8) -> Given
    requires { (length words.old ≡ 1605) × (sound (tables_of words.old) ≡ true) }
    ensures { Left (add_open (tables_of words.old) uid tid process file access) words.old words.new result }
{
    if 15 < file {
        return Err(HostRefusal::OutOfRange);
    }
    if 2 < access {
        return Err(HostRefusal::OutOfRange);
    }
    if !some_tree_is(&words[33..130], tid, uid) {
        return Err(HostRefusal::NoSuch);
    }
    let fid = free_fid(&words[130..707]);
    let o = Open {
        fid,
        uid,
        tid,
        process,
        file,
        access,
        sharing: DENY_NONE,
        read: false,
        seen: 0,
    };
    if !some_tree_holds(&words[33..130], o) {
        return Err(HostRefusal::ExceedsRight);
    }
    if 64 <= words[130] {
        return Err(HostRefusal::Full);
    }
    append_open(&mut words[130..707], o);
    Ok(fid)
}

// An open of a file through a tree of a session; the number given out is its FID.
pub fn add_open(
    words: &mut [u64; 1605],
    uid: u16,
    tid: u16,
    process: u32,
    file: u8,
    access: u8,
) -> Given
    ensures { Left (on_words words.old (add_open (tables_of words.old) uid tid process file access)) words.old words.new result }
{
    if !is_sound(words) {
        return Err(HostRefusal::NotSound);
    }
    add_sound(words, uid, tid, process, file, access)
}
