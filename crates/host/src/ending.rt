// One session, tree or open ended by its number, with what hangs on it: the host's side of LOGOFF, TREE_DISCONNECT and CLOSE.

ghost use Rattle.std.specs.Prelude.{◌≡◌, true, length};
ghost use Rattle.tables.specs.Words.{tables_of};
ghost use Rattle.soundness.specs.Sound.{sound};
ghost use Rattle.host.specs.HostCall.{is_there, gone_with, end_one};
ghost use Rattle.host.specs.OnWords.{on_words, Left};

use crate::answer::{Given, HostRefusal};
use numbers::column_words::{has_open, has_session, has_tree};
use removal::Gone;
use removal::sweep::remove_named;
use soundness::whole::is_sound;

// A session by its UID, a tree by its TID or an open by its FID.
#[derive(Clone, Copy)]
pub enum One {
    Session(u16),
    Tree(u16),
    Open(u16),
}

// Whether a record in use has the number.
fn is_there(words: &[u64], one: One) -> bool
    requires { length words.now ≡ 1605 }
    ensures { result ≡ is_there one (tables_of words.now) }
{
    match one {
        One::Session(uid) => has_session(&words[0..33], uid),
        One::Tree(tid) => has_tree(&words[33..130], tid),
        One::Open(fid) => has_open(&words[130..707], fid),
    }
}

// What goes. By the name that the definition has, and not `From`, whose clause would have to cite it.
fn gone_with(one: One) -> Gone
    ensures { result ≡ gone_with one }
{
    match one {
        One::Session(uid) => Gone::Session(uid),
        One::Tree(tid) => Gone::Tree(tid),
        One::Open(fid) => Gone::Open(fid),
    }
}

// One record ended in sound tables.
fn end_sound(words: &mut [u64], one: One) -> Given
    requires { (length words.old ≡ 1605) × (sound (tables_of words.old) ≡ true) }
    ensures { Left (end_one (tables_of words.old) one) words.old words.new result }
{
    if !is_there(words, one) {
        return Err(HostRefusal::NoSuch);
    }
    remove_named(words, gone_with(one));
    Ok(0)
}

// One session, tree or open ended; no number is given out.
pub fn end_one(words: &mut [u64; 1605], one: One) -> Given
    ensures { Left (on_words words.old (end_one (tables_of words.old) one)) words.old words.new result }
{
    if !is_sound(words) {
        return Err(HostRefusal::NotSound);
    }
    end_sound(words, one)
}
