// The locks: 641 words, the count and 128 records.

ghost use Rattle.std.specs.Prelude.{◌≡◌, ◌<◌, length, get_or};
ghost use Rattle.records.specs.Empty.{no_lock};
ghost use Rattle.tables.specs.Words.{lock_of, lock_array, lock_limits};
ghost use Rattle.tables.specs.Written.{Wrote};

use crate::cut::{flag, low16, low32};
use crate::record::Record;
use records::Lock;

// The record at a place.
pub fn lock_at(words: &[u64], i: usize) -> Lock
    requires { (length words.now ≡ 641) × (i < 128) }
    ensures { result ≡ get_or (lock_array words.now) i no_lock }
{
    let at = 1 + 5 * i;
    let fid = low16(words[at]);
    let process = low32(words[at + 1]);
    let offset = words[at + 2];
    let length = words[at + 3];
    let shared = words[at + 4] % 2 == 1;
    Lock {
        fid,
        process,
        offset,
        length,
        shared,
    }
}

// The record at a place, written.
pub fn put_lock(words: &mut [u64], i: usize, l: Lock)
    requires { (length words.old ≡ 641) × (i < 128) }
    ensures { Wrote lock_array lock_limits words.old words.new i l }
{
    let at = 1 + 5 * i;
    words[at] = u64::from(l.fid);
    words[at + 1] = u64::from(l.process);
    words[at + 2] = l.offset;
    words[at + 3] = l.length;
    words[at + 4] = flag(l.shared);
}

impl Record for Lock {
    ghost of_words = { lock_of };

    ghost limits = { lock_limits };

    ghost ROOM = { 128 };

    ghost EMPTY = { no_lock };

    const ROOM: usize = 128;

    const EMPTY: Lock = Lock {
        fid: 0,
        process: 0,
        offset: 0,
        length: 0,
        shared: false,
    };

    #[tactic(auto, unfolding(crate::specs::Words::lock_array))]
    fn read(words: &[u64], i: usize) -> Lock {
        lock_at(words, i)
    }

    #[tactic(auto, unfolding(crate::specs::Words::lock_array))]
    fn write(self, words: &mut [u64], i: usize) {
        put_lock(words, i, self);
    }
}
