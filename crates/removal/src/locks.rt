// The locks, filtered in their words.

ghost use Rattle.std.specs.Prelude.{◌≡◌, length};
ghost use Rattle.records.specs.Empty.{no_lock};
ghost use Rattle.tables.specs.Words.{lock_array, lock_limits};
ghost use Rattle.removal.specs.Filter.{lock_marked, Filtered};

use crate::filter::keep;
use crate::marks::marked;
use records::Lock;

// The locks whose open stands.
pub fn keep_locks(words: &mut [u64], fids: &[bool])
    requires { length words.old ≡ 641 }
    ensures { Filtered lock_array lock_limits 128 no_lock (lock_marked fids.now) words.old words.new }
{
    keep(
        words,
        |l: Lock| marked(fids, l.fid),
        |l: Lock| l.fid,
        &mut [],
    );
}
