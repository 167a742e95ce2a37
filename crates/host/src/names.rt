// The catalogue set whole (document 02, CR 6): 225 words in the form of the tables' own, the count and 16 names.

ghost use Rattle.std.specs.Prelude.{◌≡◌, true, length};
ghost use Rattle.tables.specs.Words.{tables_of};
ghost use Rattle.tables.specs.PartLaws.{lent};
ghost use Rattle.soundness.specs.Sound.{sound};
ghost use Rattle.host.specs.Outcome.{number_in};
ghost use Rattle.host.specs.OnWords.{set_on_sound, set_on_words, Left};

use crate::answer::{Given, HostRefusal};
use catalogue::rules::catalogue_ok;
use soundness::whole::is_sound;
use tables::copy::copy_words;

// A catalogue for sound tables: all its words, those of names not in use too.
fn set_sound(words: &mut [u64], given: &[u64]) -> Given
    requires { (length words.old ≡ 1605) × ((sound (tables_of words.old) ≡ true) × (length given.now ≡ 225)) }
    ensures left { Left (set_on_sound words.old given.now) words.old words.new result }
    ensures words_after { number_in result ≡ 0 → words.new ≡ lent words.old 1380 225 given.now }
{
    if !catalogue_ok(given) {
        return Err(HostRefusal::OutOfRange);
    }
    copy_words(&mut words[1380..1605], given);
    Ok(0)
}

// A catalogue in place of the old one; no number is given out.
pub fn set_catalogue(words: &mut [u64; 1605], given: &[u64; 225]) -> Given
    ensures left { Left (set_on_words words.old given.now) words.old words.new result }
    ensures words_after { number_in result ≡ 0 → words.new ≡ lent words.old 1380 225 given.now }
{
    if !is_sound(words) {
        return Err(HostRefusal::NotSound);
    }
    set_sound(words, given)
}
