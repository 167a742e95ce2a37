// Trees, in the words of their table: the rules of soundness, and whether a tree holds an open.

ghost use Rattle.std.specs.Prelude.{◌≡◌, ◌<◌, ◌≤◌, length};
ghost use Rattle.lists.specs.Walk.{any};
ghost use Rattle.numbers.specs.Column.{tid_of};
ghost use Rattle.tables.specs.Words.{word, record_at, tree_of, tree_limits};
ghost use Rattle.tables.specs.Written.{trees_in};
ghost use Rattle.soundness.specs.Sound.{permits, holds_open};
ghost use Rattle.soundness.specs.Lookup.{is_tree};
ghost use Rattle.numbers.specs.ByNumber.{by_number};
ghost use Rattle.soundness.specs.InWords.{table_in_order, told, tree_code, tree_in, tree_stands};

use crate::by_number::{is_marked, number_free};
use records::{Open, Tree};
use tables::fit::in_use;
use tables::tree::tree_at;

// Whether the words of a tree fit, its TID is in order, its right is among those listed and its session exists; `codes` has the
// trees behind it.
fn tree_stands(uids: &[u8; 17], codes: &[u8; 33], words: &[u64], i: usize) -> bool
    requires { (length words.now ≡ 97) × (i < 32) }
    ensures { result ≡ tree_stands uids.now codes.now (record_at 3 words.now i) }
{
    let at = 1 + 3 * i;
    number_free(codes, 0, words[at]) && words[at + 2] <= 1 && is_marked(uids, words[at + 1])
}

// The rules for each tree in use: where they hold, the UID and the right of each TID as one number, 0 for none. `uids` marks the UIDs
// of the sessions.
pub(crate) fn trees_marked(uids: &[u8; 17], words: &[u64]) -> Option<[u8; 33]>
    requires { (length uids.now ≡ 17) × ((length words.now ≡ 97) × (word words.now 0 ≤ 32)) }
    ensures { result ≡ told (table_in_order tree_limits 32 tree_of 32 tid_of (tree_in uids.now) words.now) (by_number tid_of tree_code 0 33 (trees_in words.now)) }
{
    let mut codes = [0u8; 33];
    for i in (0..words[0] as usize).rev() {
        if !tree_stands(uids, &codes, words, i) {
            return None;
        }
        let at = 1 + 3 * i;
        let tid = words[at] as usize;
        codes[tid] = (2 * words[at + 1] + 1 + words[at + 2]) as u8;
    }
    Some(codes)
}

// Whether a tree's right permits an open's access.
#[tactic(auto, unfolding(crate::specs::Sound::permits))]
fn right_permits(right: u8, access: u8) -> bool
    ensures { result ≡ permits right access }
{
    1 <= right || access == 0
}

// Whether the tree is the open's own and permits its access.
#[tactic(auto, unfolding(crate::specs::Sound::holds_open))]
fn holding(o: Open, t: Tree) -> bool
    ensures { result ≡ holds_open o t }
{
    t.tid == o.tid && t.uid == o.uid && right_permits(t.right, o.access)
}

// Whether a tree in use holds the open.
pub fn some_tree_holds(words: &[u64], o: Open) -> bool
    requires { length words.now ≡ 97 }
    ensures { result ≡ any (holds_open o) (trees_in words.now) }
{
    (0..in_use(words, 32)).any(|i| holding(o, tree_at(words, i)))
}

// Whether the tree has that TID and is of that session.
#[tactic(auto, unfolding(crate::specs::Lookup::is_tree))]
fn tree_is(t: Tree, tid: u16, uid: u16) -> bool
    ensures { result ≡ is_tree tid uid t }
{
    t.tid == tid && t.uid == uid
}

// Whether a tree in use has that TID and is of that session.
pub fn some_tree_is(words: &[u64], tid: u16, uid: u16) -> bool
    requires { length words.now ≡ 97 }
    ensures { result ≡ any (is_tree tid uid) (trees_in words.now) }
{
    (0..in_use(words, 32)).any(|i| tree_is(tree_at(words, i), tid, uid))
}
