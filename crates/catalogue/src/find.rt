// A name looked up.

ghost use Rattle.std.specs.Prelude.{◌≡◌, ◌<◌, length, get_or};
ghost use Rattle.lists.specs.Walk.{found};
ghost use Rattle.records.specs.Empty.{no_name};
ghost use Rattle.tables.specs.Words.{name_array};
ghost use Rattle.tables.specs.Written.{names_in};
ghost use Rattle.catalogue.specs.Name.{is_named};

use crate::compare::is_named;
use tables::cut::low8;
use tables::fit::in_use;

// The place of the first name in use that is the one given.
pub fn find_name(words: &[u64], name: &[u8]) -> Option<usize>
    requires { length words.now ≡ 225 }
    ensures { result ≡ found (is_named name.now) (names_in words.now) }
{
    (0..in_use(words, 16)).position(|i| is_named(words, i, name))
}

// The file of the name at a place.
pub fn name_file(words: &[u64], i: usize) -> u8
    requires { (length words.now ≡ 225) × (i < 16) }
    ensures { result ≡ (get_or (name_array words.now) i no_name).file }
{
    low8(words[14 + 14 * i])
}
