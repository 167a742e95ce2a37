// The sessions: 33 words, the count and 16 records.

ghost use Rattle.std.specs.Prelude.{◌≡◌, ◌<◌, length, get_or};
ghost use Rattle.records.specs.Empty.{no_session};
ghost use Rattle.tables.specs.Words.{session_of, session_array, session_limits};
ghost use Rattle.tables.specs.Written.{Wrote};

use crate::cut::{low16, low32};
use crate::record::Record;
use records::Session;

// The record at a place.
pub fn session_at(words: &[u64], i: usize) -> Session
    requires { (length words.now ≡ 33) × (i < 16) }
    ensures { result ≡ get_or (session_array words.now) i no_session }
{
    let at = 1 + 2 * i;
    let uid = low16(words[at]);
    let connection = low32(words[at + 1]);
    Session { uid, connection }
}

// The record at a place, written.
pub fn put_session(words: &mut [u64], i: usize, s: Session)
    requires { (length words.old ≡ 33) × (i < 16) }
    ensures { Wrote session_array session_limits words.old words.new i s }
{
    let at = 1 + 2 * i;
    words[at] = u64::from(s.uid);
    words[at + 1] = u64::from(s.connection);
}

impl Record for Session {
    ghost of_words = { session_of };

    ghost limits = { session_limits };

    ghost ROOM = { 16 };

    ghost EMPTY = { no_session };

    const ROOM: usize = 16;

    const EMPTY: Session = Session {
        uid: 0,
        connection: 0,
    };

    #[tactic(auto, unfolding(crate::specs::Words::session_array))]
    fn read(words: &[u64], i: usize) -> Session {
        session_at(words, i)
    }

    #[tactic(auto, unfolding(crate::specs::Words::session_array))]
    fn write(self, words: &mut [u64], i: usize) {
        put_session(words, i, self);
    }
}
