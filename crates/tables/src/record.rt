// What the records of the tables have in common. Their reads and writes differ in the fields, and stand beside each record (`session_at`,
// `put_session` ..) for the crates that name one.

ghost use Rattle.std.specs.Prelude.{◌≡◌, ℕ, ◌+◌, ◌*◌, ◌<◌, List, length, get_or};
ghost use Rattle.tables.specs.Words.{array_of};
ghost use Rattle.tables.specs.Written.{Wrote};

// A record of a table: how many there are, what stands in one that is not in use, and how one is read and written in its table's words.
pub trait Record: Copy {
    // the record that the words say, and the largest value of each of its words
    ghost of_words: { List ℕ → Self };

    ghost limits: { List ℕ };

    ghost ROOM: { ℕ };

    ghost EMPTY: { Self };

    const ROOM: usize;

    const EMPTY: Self;

    // The record at a place.
    fn read(words: &[u64], i: usize) -> Self
        requires { (length words.now ≡ 1 + length limits * ROOM) × (i < ROOM) }
        ensures { result ≡ get_or (array_of of_words (length limits) ROOM words.now) i EMPTY };

    // The record at a place, written.
    fn write(self, words: &mut [u64], i: usize)
        requires { (length words.old ≡ 1 + length limits * ROOM) × (i < ROOM) }
        ensures { Wrote (array_of of_words (length limits) ROOM) limits words.old words.new i self };
}
