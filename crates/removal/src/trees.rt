// The trees, filtered in their words.

ghost use Rattle.std.specs.Prelude.{◌≡◌, map, length};
ghost use Rattle.lists.specs.Walk.{keep};
ghost use Rattle.records.specs.Empty.{no_tree};
ghost use Rattle.tables.specs.Words.{tree_array, tree_limits};
ghost use Rattle.tables.specs.Written.{trees_in};
ghost use Rattle.numbers.specs.Column.{tid_of};
ghost use Rattle.removal.specs.Filter.{marks_of, tree_marked, Filtered};

use crate::filter::keep;
use crate::marks::marked;
use crate::{Gone, tree_named};
use records::Tree;

// Whether the tree is not named and its session stands.
fn tree_marked(gone: Gone, uids: &[bool], t: Tree) -> bool
    ensures { result ≡ tree_marked gone uids.now t }
{
    !tree_named(gone, t) && marked(uids, t.uid)
}

// The trees that stay, and marks of their TIDs.
pub fn keep_trees(words: &mut [u64], gone: Gone, uids: &[bool]) -> [bool; 65]
    requires { length words.old ≡ 97 }
    ensures { (result ≡ marks_of (map tid_of (keep (tree_marked gone uids.now) (trees_in words.old)))) × Filtered tree_array tree_limits 32 no_tree (tree_marked gone uids.now) words.old words.new }
{
    let mut tids = [false; 65];
    keep(
        words,
        |t: Tree| tree_marked(gone, uids, t),
        |t: Tree| t.tid,
        &mut tids,
    );
    tids
}
