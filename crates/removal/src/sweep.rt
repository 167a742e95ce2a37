// Removal in the words of all tables.

ghost use Rattle.std.specs.Prelude.{◌≡◌, length};
ghost use Rattle.tables.specs.Words.{tables_of};
ghost use Rattle.removal.specs.Filter.{Numbered, Removed};

use crate::Gone;
use crate::locks::keep_locks;
use crate::opens::keep_opens;
use crate::sessions::keep_sessions;
use crate::trees::keep_trees;

// The tables without what goes: each table is filtered by what stands of the one before it.
pub fn remove_named(words: &mut [u64], gone: Gone)
    requires { (length words.old ≡ 1605) × Numbered (tables_of words.old) }
    ensures { Removed gone words.old words.new }
{
    let uids = keep_sessions(&mut words[0..33], gone);
    let tids = keep_trees(&mut words[33..130], gone, &uids);
    let fids = keep_opens(&mut words[130..707], gone, &tids);
    keep_locks(&mut words[707..1348], &fids);
}
