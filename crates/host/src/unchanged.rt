// Whether a file has changed since an open last read it (document 02, CR 8). The tables are only read.

ghost use Rattle.std.specs.Prelude.{◌≡◌, true, cond, ◌≤◌, length, eqb};
ghost use Rattle.lists.specs.Walk.{found};
ghost use Rattle.tables.specs.Words.{word, tables_of};
ghost use Rattle.tables.specs.Written.{opens_in};
ghost use Rattle.soundness.specs.Sound.{sound};
ghost use Rattle.host.specs.HostCall.{is_unchanged, ask_unchanged};
ghost use Rattle.host.specs.OnWords.{on_words, Gives};

use crate::answer::{Given, HostRefusal};
use records::Open;
use soundness::whole::is_sound;
use tables::file::{LARGEST, changes_at};
use tables::open::open_at;

// Where the open of that FID stands.
fn find_fid(words: &[u64], fid: u16) -> Option<usize>
    requires { (length words.now ≡ 577) × (word words.now 0 ≤ 64) }
    ensures { result ≡ found (λ o. eqb o.fid fid) (opens_in words.now) }
{
    (0..words[0] as usize).position(|i| open_at(words, i).fid == fid)
}

// "unchanged" exactly if the open has read, the numbers are equal and below the largest.
fn is_unchanged(words: &[u64], o: Open) -> bool
    requires { (length words.now ≡ 1605) × (o.file ≤ 15) }
    ensures { result ≡ is_unchanged (tables_of words.now) o }
{
    if !o.read {
        return false;
    }
    let number = changes_at(&words[1348..1380], o.file as usize);
    if o.seen != number {
        return false;
    }
    number < LARGEST
}

// The answer beside 0: 1 for "unchanged", 0 for "changed".
fn answer_of(unchanged: bool) -> u16
    ensures { result ≡ cond unchanged 1 0 }
{
    u16::from(unchanged)
}

// The question on sound tables: "6 for an unknown FID".
fn ask_sound(words: &[u64], fid: u16) -> Given
    requires { (length words.now ≡ 1605) × (sound (tables_of words.now) ≡ true) }
    ensures { Gives (ask_unchanged (tables_of words.now) fid) result }
{
    let Some(i) = find_fid(&words[130..707], fid) else {
        return Err(HostRefusal::NoSuch);
    };
    let o = open_at(&words[130..707], i);
    Ok(answer_of(is_unchanged(words, o)))
}

// Whether an open has read and its file was not changed since, as far as the change numbers tell: beside 0 stands 1 for "unchanged", or 0 for "changed", which a
// write of equal bytes gives too, and a number at its largest.
pub fn ask_unchanged(words: &[u64; 1605], fid: u16) -> Given
    ensures { Gives (on_words words.now (ask_unchanged (tables_of words.now) fid)) result }
{
    if !is_sound(words) {
        return Err(HostRefusal::NotSound);
    }
    ask_sound(words, fid)
}
