// The catalogue's rules: "up to 16 names of 1 to 12 bytes, each with a file number", none of them "with a zero byte or doubled, a file above 15".

ghost use Rattle.std.specs.Prelude.{◌≡◌, ◌&&◌, ◌+◌, ◌<◌, ◌≤◌, length, get_or};
ghost use Rattle.lists.specs.Walk.{all, rest};
ghost use Rattle.records.specs.Empty.{no_name};
ghost use Rattle.tables.specs.Words.{word, record_at, name_array, name_limits, table_fits, within};
ghost use Rattle.tables.specs.Written.{names_in};
ghost use Rattle.catalogue.specs.Name.{name_ok, differ, none_doubled, catalogue_ok};
ghost use Rattle.catalogue.specs.InWords.{byte_stands, text_stands};

use crate::compare::same_names;

// Whether a word of a name's text is a byte and, where it is one of the first n, not zero.
fn byte_stands(x: u64, n: usize, k: usize) -> bool
    ensures { result ≡ byte_stands n x k }
{
    x <= 255 && (n <= k || x != 0)
}

// The same of all twelve.
fn text_stands(words: &[u64], from: usize, n: usize) -> bool
    requires { from + 12 ≤ length words.now }
    ensures { result ≡ text_stands words.now from n }
{
    (0..12).all(|k| byte_stands(words[from + k], n, k))
}

// Whether the words of a name fit and it keeps the rules for one.
fn name_stands(words: &[u64], i: usize) -> bool
    requires { (length words.now ≡ 225) × (i < 16) }
    ensures { result ≡ within name_limits (record_at 14 words.now i) && name_ok (get_or (name_array words.now) i no_name) }
{
    let n = words[1 + 14 * i];
    if n < 1 || 12 < n || 15 < words[14 + 14 * i] {
        return false;
    }
    text_stands(words, 2 + 14 * i, n as usize)
}

// The same of each name in use.
fn names_stand(words: &[u64]) -> bool
    requires { (length words.now ≡ 225) × (word words.now 0 ≤ 16) }
    ensures { result ≡ table_fits name_limits 16 words.now && all name_ok (names_in words.now) }
{
    (0..words[0] as usize).all(|i| name_stands(words, i))
}

// Whether the name at a place is none of those behind it.
fn differs_later(words: &[u64], i: usize) -> bool
    requires { (length words.now ≡ 225) × ((word words.now 0 ≤ 16) × (i < word words.now 0)) }
    ensures { result ≡ all (differ (get_or (name_array words.now) i no_name)) (rest (name_array words.now) (word words.now 0) (i + 1)) }
{
    (i + 1..words[0] as usize).all(|j| !same_names(words, i, j))
}

// Whether no name in use is doubled.
fn none_doubled(words: &[u64]) -> bool
    requires { (length words.now ≡ 225) × (word words.now 0 ≤ 16) }
    ensures { result ≡ none_doubled (names_in words.now) }
{
    (0..words[0] as usize).all(|i| differs_later(words, i))
}

// Whether the words in use fit their fields and the catalogue keeps its rules.
pub fn catalogue_ok(words: &[u64]) -> bool
    requires { length words.now ≡ 225 }
    ensures { result ≡ table_fits name_limits 16 words.now && catalogue_ok (name_array words.now) (word words.now 0) }
{
    if 16 < words[0] {
        return false;
    }
    names_stand(words) && none_doubled(words)
}
