// A table filtered in its words, whatever its records are.

ghost use Rattle.std.specs.Prelude.{◌≡◌, ℕ, Bool, false, ◌+◌, ◌*◌, ◌<◌, length, map, take, replicate};
ghost use Rattle.lists.specs.Walk.{keep};
ghost use Rattle.tables.specs.Words.{word, array_of};
ghost use Rattle.removal.specs.Filter.{marks_of, Tells, Shifted, Filtered};

use crate::marks::mark;
use tables::fit::in_use;
use tables::record::Record;

// The record at one place moved to another, its own place empty.
fn move_record<R: Record>(words: &mut [u64], from: usize, to: usize)
    requires { (length words.old ≡ 1 + length R.limits * R.ROOM) × ((from < R.ROOM) × (to < R.ROOM)) }
    ensures { Shifted (array_of R.of_words (length R.limits) R.ROOM) R.limits R.EMPTY words.old words.new from to }
{
    if from == to {
        return;
    }
    let x = R::read(words, from);
    R::EMPTY.write(words, from);
    x.write(words, to);
}

// The records that stay, in order, and the number of each marked; marks of no length take none.
pub(crate) fn keep<R: Record, F: Fn(R) -> bool, N: Fn(R) -> u16>(
    words: &mut [u64],
    stays: F,
    number: N,
    marks: &mut [bool],
)
    requires sized { length words.old ≡ 1 + length R.limits * R.ROOM }
    requires stays { F.IsAlwaysCallable stays }
    requires number { N.IsAlwaysCallable number }
    ensures filtered { (p : R → Bool) → Tells (F.post stays) p → Filtered (array_of R.of_words (length R.limits) R.ROOM) R.limits R.ROOM R.EMPTY p words.old words.new }
    ensures marked { (p : R → Bool) → Tells (F.post stays) p → (key : R → ℕ) → Tells (N.post number) key → marks.old ≡ replicate 65 false → marks.new ≡ marks_of (map key (keep p (take (word words.old 0) (array_of R.of_words (length R.limits) R.ROOM words.old)))) }
{
    let n = in_use(words, R::ROOM);
    let mut count: usize = 0;
    for i in 0..n {
        let x = R::read(words, i);
        if stays(x) {
            move_record::<R>(words, i, count);
            mark(marks, number(x));
            count += 1;
        } else {
            R::EMPTY.write(words, i);
        }
    }
    words[0] = count as u64;
}
