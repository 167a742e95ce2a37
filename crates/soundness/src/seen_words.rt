// What opens remember of their files, in the words of both tables: "an open's remembered number doesn't exceed its file's" (document 02, CR 8).

ghost use Rattle.std.specs.Prelude.{◌≡◌, ◌<◌, ◌≤◌, length, get_or};
ghost use Rattle.lists.specs.Walk.{all};
ghost use Rattle.records.specs.Empty.{no_file};
ghost use Rattle.tables.specs.Words.{word, file_array};
ghost use Rattle.tables.specs.Written.{opens_in};
ghost use Rattle.soundness.specs.Sound.{seen_ok};

use tables::file::changes_at;
use tables::open::open_at;

// The change number of a file; a number that no file has counts as a file that never changed.
fn changes_of(files: &[u64], file: u8) -> u64
    requires { length files.now ≡ 32 }
    ensures { result ≡ (get_or (file_array files.now) file no_file).changes }
{
    let i = file as usize;
    if i < 16 { changes_at(files, i) } else { 0 }
}

// The rule for each open in use.
pub(crate) fn all_seen(files: &[u64], words: &[u64]) -> bool
    requires { (length files.now ≡ 32) × ((length words.now ≡ 577) × (word words.now 0 ≤ 64)) }
    ensures { result ≡ all (seen_ok (file_array files.now)) (opens_in words.now) }
{
    (0..words[0] as usize).all(|i| {
        let o = open_at(words, i);
        o.seen <= changes_of(files, o.file)
    })
}
