// The opens, filtered in their words.

ghost use Rattle.std.specs.Prelude.{◌≡◌, map, length};
ghost use Rattle.lists.specs.Walk.{keep};
ghost use Rattle.records.specs.Empty.{no_open};
ghost use Rattle.tables.specs.Words.{open_array, open_limits};
ghost use Rattle.tables.specs.Written.{opens_in};
ghost use Rattle.numbers.specs.Column.{fid_of};
ghost use Rattle.removal.specs.Filter.{marks_of, open_marked, Filtered};

use crate::filter::keep;
use crate::marks::marked;
use crate::{Gone, open_named};
use records::Open;

// Whether the open is not named and its tree stands.
fn open_marked(gone: Gone, tids: &[bool], o: Open) -> bool
    ensures { result ≡ open_marked gone tids.now o }
{
    !open_named(gone, o) && marked(tids, o.tid)
}

// The opens that stay, and marks of their FIDs.
pub fn keep_opens(words: &mut [u64], gone: Gone, tids: &[bool]) -> [bool; 65]
    requires { length words.old ≡ 577 }
    ensures { (result ≡ marks_of (map fid_of (keep (open_marked gone tids.now) (opens_in words.old)))) × Filtered open_array open_limits 64 no_open (open_marked gone tids.now) words.old words.new }
{
    let mut fids = [false; 65];
    keep(
        words,
        |o: Open| open_marked(gone, tids, o),
        |o: Open| o.fid,
        &mut fids,
    );
    fids
}
