// Names compared with ASCII letters caseless.

ghost use Rattle.std.specs.Prelude.{◌≡◌, ◌<◌, ◌%◌, length, get_or, eqb};
ghost use Rattle.records.specs.Empty.{no_name};
ghost use Rattle.tables.specs.Words.{name_array};
ghost use Rattle.catalogue.specs.Name.{folded, name_bytes, is_named};

use tables::cut::low8;

// A to Z as a to z, and every other byte as it is.
fn fold(b: u8) -> u8
    ensures { result ≡ folded b }
{
    b.to_ascii_lowercase()
}

// How many bytes the name at a place has.
fn name_length(words: &[u64], i: usize) -> usize
    requires { (length words.now ≡ 225) × (i < 16) }
    ensures { result ≡ length (name_bytes (get_or (name_array words.now) i no_name)) }
{
    (low8(words[1 + 14 * i]) as usize).min(12)
}

// Whether the name at a place is the one given.
pub(crate) fn is_named(words: &[u64], i: usize, name: &[u8]) -> bool
    requires { (length words.now ≡ 225) × (i < 16) }
    ensures { result ≡ is_named name.now (get_or (name_array words.now) i no_name) }
{
    let n = name_length(words, i);
    n == name.len() && (0..n).all(|k| fold(low8(words[2 + 14 * i + k])) == fold(name[k]))
}

// Whether two words of text have the same letter. Words of names that begin alike are equal as they stand, which is tested first.
fn same_letter(x: u64, y: u64) -> bool
    ensures { result ≡ eqb (folded (x % 256)) (folded (y % 256)) }
{
    x == y || fold(low8(x)) == fold(low8(y))
}

// Whether the name at place j is the one at place i.
pub(crate) fn same_names(words: &[u64], i: usize, j: usize) -> bool
    requires { (length words.now ≡ 225) × ((i < 16) × (j < 16)) }
    ensures { result ≡ is_named (name_bytes (get_or (name_array words.now) i no_name)) (get_or (name_array words.now) j no_name) }
{
    let n = name_length(words, j);
    n == name_length(words, i)
        && (0..n).all(|k| same_letter(words[2 + 14 * j + k], words[2 + 14 * i + k]))
}
