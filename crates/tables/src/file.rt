// The files: 32 words, the size and the change number of each.

ghost use Rattle.std.specs.Prelude.{◌≡◌, ◌<◌, length, get_or, set};
ghost use Rattle.records.specs.Change.{raised, file_after};
ghost use Rattle.records.specs.Empty.{no_file};
ghost use Rattle.tables.specs.Words.{file_array};

// The size of a file.
pub fn size_at(words: &[u64], i: usize) -> usize
    requires { (length words.now ≡ 32) × (i < 16) }
    ensures { result ≡ (get_or (file_array words.now) i no_file).size }
{
    words[2 * i] as usize
}

// The change number of a file.
pub fn changes_at(words: &[u64], i: usize) -> u64
    requires { (length words.now ≡ 32) × (i < 16) }
    ensures { result ≡ (get_or (file_array words.now) i no_file).changes }
{
    words[2 * i + 1]
}

// The largest change number (document 02, CR 8: 32 bits).
pub const LARGEST: u64 = 4294967295;

// "raised by one ..; at its largest it stays"
fn raise(number: u64) -> u64
    ensures { result ≡ raised number }
{
    number.saturating_add(1).min(LARGEST)
}

// A file that was changed: its size, written, and its change number raised.
pub fn put_change(words: &mut [u64], i: usize, size: usize)
    requires { (length words.old ≡ 32) × (i < 16) }
    ensures { file_array words.new ≡ set (file_array words.old) i (file_after (get_or (file_array words.old) i no_file) size) }
{
    let at = 2 * i;
    let number = raise(words[at + 1]);
    words[at] = size as u64;
    words[at + 1] = number;
}
