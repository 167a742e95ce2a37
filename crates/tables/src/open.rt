// The opens: 577 words, the count and 64 records.

ghost use Rattle.std.specs.Prelude.{◌≡◌, ◌<◌, length, get_or};
ghost use Rattle.records.specs.Change.{open_after};
ghost use Rattle.records.specs.Empty.{no_open};
ghost use Rattle.tables.specs.Words.{open_of, open_array, open_limits};
ghost use Rattle.tables.specs.Written.{Wrote, Renewed};

use crate::cut::{flag, low8, low16, low32};
use crate::record::Record;
use records::Open;

// The record at a place.
pub fn open_at(words: &[u64], i: usize) -> Open
    requires { (length words.now ≡ 577) × (i < 64) }
    ensures { result ≡ get_or (open_array words.now) i no_open }
{
    let at = 1 + 9 * i;
    let fid = low16(words[at]);
    let uid = low16(words[at + 1]);
    let tid = low16(words[at + 2]);
    let process = low32(words[at + 3]);
    let file = low8(words[at + 4]);
    let access = low8(words[at + 5]);
    let sharing = low8(words[at + 6]);
    let read = words[at + 7] % 2 == 1;
    let seen = words[at + 8];
    Open {
        fid,
        uid,
        tid,
        process,
        file,
        access,
        sharing,
        read,
        seen,
    }
}

// The record at a place, written.
pub fn put_open(words: &mut [u64], i: usize, o: Open)
    requires { (length words.old ≡ 577) × (i < 64) }
    ensures { Wrote open_array open_limits words.old words.new i o }
{
    let at = 1 + 9 * i;
    words[at] = u64::from(o.fid);
    words[at + 1] = u64::from(o.uid);
    words[at + 2] = u64::from(o.tid);
    words[at + 3] = u64::from(o.process);
    words[at + 4] = u64::from(o.file);
    words[at + 5] = u64::from(o.access);
    words[at + 6] = u64::from(o.sharing);
    words[at + 7] = flag(o.read);
    words[at + 8] = o.seen;
}

// What the open at a place remembers, written: that it has read, and its file's number then. Its other words stand.
pub fn put_read(words: &mut [u64], i: usize, number: u64)
    requires { (length words.old ≡ 577) × (i < 64) }
    ensures { Renewed open_array open_limits words.old words.new i (open_after (get_or (open_array words.old) i no_open) number) }
{
    let at = 1 + 9 * i;
    words[at + 7] = 1;
    words[at + 8] = number;
}

impl Record for Open {
    ghost of_words = { open_of };

    ghost limits = { open_limits };

    ghost ROOM = { 64 };

    ghost EMPTY = { no_open };

    const ROOM: usize = 64;

    const EMPTY: Open = Open {
        fid: 0,
        uid: 0,
        tid: 0,
        process: 0,
        file: 0,
        access: 0,
        sharing: 0,
        read: false,
        seen: 0,
    };

    #[tactic(auto, unfolding(crate::specs::Words::open_array))]
    fn read(words: &[u64], i: usize) -> Open {
        open_at(words, i)
    }

    #[tactic(auto, unfolding(crate::specs::Words::open_array))]
    fn write(self, words: &mut [u64], i: usize) {
        put_open(words, i, self);
    }
}
