// A session added in the words: "UID, TID and FID are the smallest number from 1 not in use".

ghost use Rattle.std.specs.Prelude.{◌≡◌, true, ◌<◌, length};
ghost use Rattle.records.specs.Empty.{no_session};
ghost use Rattle.tables.specs.Words.{word, session_array, session_limits, tables_of};
ghost use Rattle.soundness.specs.Sound.{sound};
ghost use Rattle.host.specs.HostCall.{add_session};
ghost use Rattle.host.specs.OnWords.{on_words, Left, Appended};

use crate::answer::{Given, HostRefusal};
use crate::append::append;
use numbers::column_words::free_uid;
use records::Session;
use soundness::whole::is_sound;

// A session in sound tables.
fn add_sound(words: &mut [u64], connection: u32) -> Given
    requires { (length words.old ≡ 1605) × (sound (tables_of words.old) ≡ true) }
    ensures { Left (add_session (tables_of words.old) connection) words.old words.new result }
{
    if 16 <= words[0] {
        return Err(HostRefusal::Full);
    }
    let uid = free_uid(&words[0..33]);
    append(&mut words[0..33], Session { uid, connection });
    Ok(uid)
}

// A session on a connection; the number given out is its UID.
pub fn add_session(words: &mut [u64; 1605], connection: u32) -> Given
    ensures { Left (on_words words.old (add_session (tables_of words.old) connection)) words.old words.new result }
{
    if !is_sound(words) {
        return Err(HostRefusal::NotSound);
    }
    add_sound(words, connection)
}
