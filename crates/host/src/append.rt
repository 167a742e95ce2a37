// A record put behind those in use, whatever table it is of.

ghost use Rattle.std.specs.Prelude.{◌≡◌, ◌+◌, ◌*◌, ◌<◌, length};
ghost use Rattle.tables.specs.Words.{word, array_of};
ghost use Rattle.host.specs.OnWords.{Appended};

use tables::fit::in_use;
use tables::record::Record;

// The record, and the count one higher.
pub(crate) fn append<R: Record>(words: &mut [u64], x: R)
    requires { (length words.old ≡ 1 + length R.limits * R.ROOM) × (word words.old 0 < R.ROOM) }
    ensures { Appended (array_of R.of_words (length R.limits) R.ROOM) R.limits R.ROOM R.EMPTY words.old words.new x }
{
    let count = in_use(words, R::ROOM);
    x.write(words, count);
    words[0] = (count + 1) as u64;
}
