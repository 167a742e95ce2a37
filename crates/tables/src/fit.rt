// How many records of a table are in use.

ghost use Rattle.std.specs.Prelude.{◌≡◌, ◌<◌, length};
ghost use Rattle.tables.specs.Words.{in_use};

// How many records of a table are in use; a count past the table's room counts the whole table.
pub fn in_use(words: &[u64], room: usize) -> usize
    requires { 0 < length words.now }
    ensures { result ≡ in_use words.now room }
{
    (words[0] as usize).min(room)
}
