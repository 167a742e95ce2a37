// Sessions, in the words of their table: the rules of soundness.

ghost use Rattle.std.specs.Prelude.{◌≡◌, true, ◌<◌, ◌≤◌, length};
ghost use Rattle.numbers.specs.Column.{uid_of};
ghost use Rattle.tables.specs.Words.{word, record_at, session_of, session_limits};
ghost use Rattle.tables.specs.Written.{sessions_in};
ghost use Rattle.numbers.specs.ByNumber.{by_number};
ghost use Rattle.soundness.specs.InWords.{table_in_order, told, session_stands};

use crate::by_number::number_free;

// Whether the words of a session fit and its UID is in order; `uids` marks those of the sessions behind it.
fn session_stands(uids: &[u8; 17], words: &[u64], i: usize) -> bool
    requires { (length words.now ≡ 33) × (i < 16) }
    ensures { result ≡ session_stands uids.now (record_at 2 words.now i) }
{
    let at = 1 + 2 * i;
    number_free(uids, 0, words[at]) && words[at + 1] <= 4294967295
}

// The rules for each session in use: where they hold, the UIDs in use, 1 for each.
pub(crate) fn sessions_marked(words: &[u64]) -> Option<[u8; 17]>
    requires { (length words.now ≡ 33) × (word words.now 0 ≤ 16) }
    ensures { result ≡ told (table_in_order session_limits 16 session_of 16 uid_of (λ _. true) words.now) (by_number uid_of (λ _. 1) 0 17 (sessions_in words.now)) }
{
    let mut uids = [0u8; 17];
    for i in (0..words[0] as usize).rev() {
        if !session_stands(&uids, words, i) {
            return None;
        }
        let uid = words[1 + 2 * i] as usize;
        uids[uid] = 1;
    }
    Some(uids)
}
