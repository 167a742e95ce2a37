// A tree added in the words.

ghost use Rattle.std.specs.Prelude.{◌≡◌, true, ◌<◌, length};
ghost use Rattle.records.specs.Empty.{no_tree};
ghost use Rattle.tables.specs.Words.{word, tree_array, tree_limits, tables_of};
ghost use Rattle.soundness.specs.Sound.{sound};
ghost use Rattle.host.specs.HostCall.{add_tree};
ghost use Rattle.host.specs.OnWords.{on_words, Left, Appended};

use crate::answer::{Given, HostRefusal};
use crate::append::append;
use numbers::column_words::{free_tid, has_session};
use records::Tree;
use soundness::whole::is_sound;

// A tree in sound tables.
fn add_sound(words: &mut [u64], uid: u16, right: u8) -> Given
    requires { (length words.old ≡ 1605) × (sound (tables_of words.old) ≡ true) }
    ensures { Left (add_tree (tables_of words.old) uid right) words.old words.new result }
{
    if 1 < right {
        return Err(HostRefusal::OutOfRange);
    }
    if !has_session(&words[0..33], uid) {
        return Err(HostRefusal::NoSuch);
    }
    if 32 <= words[33] {
        return Err(HostRefusal::Full);
    }
    let tid = free_tid(&words[33..130]);
    append(&mut words[33..130], Tree { tid, uid, right });
    Ok(tid)
}

// A tree of a session; the number given out is its TID.
pub fn add_tree(words: &mut [u64; 1605], uid: u16, right: u8) -> Given
    ensures { Left (on_words words.old (add_tree (tables_of words.old) uid right)) words.old words.new result }
{
    if !is_sound(words) {
        return Err(HostRefusal::NotSound);
    }
    add_sound(words, uid, right)
}
