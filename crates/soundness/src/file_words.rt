// Files, in the words of their table: "each has a size of 0 to 4,096" and "a 32-bit change number".

ghost use Rattle.std.specs.Prelude.{◌≡◌, length};
ghost use Rattle.lists.specs.Walk.{all};
ghost use Rattle.tables.specs.Words.{file_array};
ghost use Rattle.soundness.specs.Sound.{file_ok};

use tables::file::LARGEST;

// The largest size of a file.
const SIZE: u64 = 4096;

// The rule for each file.
pub(crate) fn files_ok(words: &[u64]) -> bool
    requires { length words.now ≡ 32 }
    ensures { result ≡ all file_ok (file_array words.now) }
{
    for i in 0..16 {
        if SIZE < words[2 * i] || LARGEST < words[2 * i + 1] {
            return false;
        }
    }
    true
}
