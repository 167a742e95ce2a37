// A connection dropped: its sessions go from the words, each with what hangs on it. "Dropping an unknown connection is 0 and changes
// nothing."

ghost use Rattle.std.specs.Prelude.{◌≡◌, true, length};
ghost use Rattle.tables.specs.Words.{tables_of};
ghost use Rattle.soundness.specs.Sound.{sound};
ghost use Rattle.host.specs.HostCall.{drop_connection};
ghost use Rattle.host.specs.OnWords.{on_words, Left};

use crate::answer::{Given, HostRefusal};
use removal::Gone;
use removal::sweep::remove_named;
use soundness::whole::is_sound;

// A connection dropped from sound tables.
fn drop_sound(words: &mut [u64], connection: u32) -> Given
    requires { (length words.old ≡ 1605) × (sound (tables_of words.old) ≡ true) }
    ensures { Left (drop_connection (tables_of words.old) connection) words.old words.new result }
{
    remove_named(words, Gone::Connection(connection));
    Ok(0)
}

// A connection dropped; no number is given out.
pub fn drop_connection(words: &mut [u64; 1605], connection: u32) -> Given
    ensures { Left (on_words words.old (drop_connection (tables_of words.old) connection)) words.old words.new result }
{
    if !is_sound(words) {
        return Err(HostRefusal::NotSound);
    }
    drop_sound(words, connection)
}
