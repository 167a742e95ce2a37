// The sessions, filtered in their words.

ghost use Rattle.std.specs.Prelude.{◌≡◌, map, length};
ghost use Rattle.lists.specs.Walk.{keep};
ghost use Rattle.records.specs.Empty.{no_session};
ghost use Rattle.tables.specs.Words.{session_array, session_limits};
ghost use Rattle.tables.specs.Written.{sessions_in};
ghost use Rattle.numbers.specs.Column.{uid_of};
ghost use Rattle.removal.specs.Removal.{session_stays};
ghost use Rattle.removal.specs.Filter.{marks_of, Filtered};

use crate::filter::keep;
use crate::{Gone, session_stays};
use records::Session;

// The sessions that stay, and marks of their UIDs.
pub fn keep_sessions(words: &mut [u64], gone: Gone) -> [bool; 65]
    requires { length words.old ≡ 33 }
    ensures { (result ≡ marks_of (map uid_of (keep (session_stays gone) (sessions_in words.old)))) × Filtered session_array session_limits 16 no_session (session_stays gone) words.old words.new }
{
    let mut uids = [false; 65];
    keep(
        words,
        |s: Session| session_stays(gone, s),
        |s: Session| s.uid,
        &mut uids,
    );
    uids
}
