// The trees: 97 words, the count and 32 records.

ghost use Rattle.std.specs.Prelude.{◌≡◌, ◌<◌, length, get_or};
ghost use Rattle.records.specs.Empty.{no_tree};
ghost use Rattle.tables.specs.Words.{tree_of, tree_array, tree_limits};
ghost use Rattle.tables.specs.Written.{Wrote};

use crate::cut::{low8, low16};
use crate::record::Record;
use records::Tree;

// The record at a place.
pub fn tree_at(words: &[u64], i: usize) -> Tree
    requires { (length words.now ≡ 97) × (i < 32) }
    ensures { result ≡ get_or (tree_array words.now) i no_tree }
{
    let at = 1 + 3 * i;
    let tid = low16(words[at]);
    let uid = low16(words[at + 1]);
    let right = low8(words[at + 2]);
    Tree { tid, uid, right }
}

// The record at a place, written.
pub fn put_tree(words: &mut [u64], i: usize, t: Tree)
    requires { (length words.old ≡ 97) × (i < 32) }
    ensures { Wrote tree_array tree_limits words.old words.new i t }
{
    let at = 1 + 3 * i;
    words[at] = u64::from(t.tid);
    words[at + 1] = u64::from(t.uid);
    words[at + 2] = u64::from(t.right);
}

impl Record for Tree {
    ghost of_words = { tree_of };

    ghost limits = { tree_limits };

    ghost ROOM = { 32 };

    ghost EMPTY = { no_tree };

    const ROOM: usize = 32;

    const EMPTY: Tree = Tree {
        tid: 0,
        uid: 0,
        right: 0,
    };

    #[tactic(auto, unfolding(crate::specs::Words::tree_array))]
    fn read(words: &[u64], i: usize) -> Tree {
        tree_at(words, i)
    }

    #[tactic(auto, unfolding(crate::specs::Words::tree_array))]
    fn write(self, words: &mut [u64], i: usize) {
        put_tree(words, i, self);
    }
}
