// Soundness of the tables in the words that the host lends (document 01, "Tables and room"): nothing is assumed of a count or a
// number before it is tested, and words of records that are not in use are not looked at.

ghost use Rattle.std.specs.Prelude.{◌≡◌, ◌&&◌, ◌≤◌, length};
ghost use Rattle.lists.specs.Walk.{all};
ghost use Rattle.locks.specs.Answer.{file_in};
ghost use Rattle.tables.specs.Words.{word, tables_of, in_use_fit, table_fits, lock_limits};
ghost use Rattle.tables.specs.Written.{locks_in};
ghost use Rattle.soundness.specs.Sound.{within_room, agree_all, sound};
ghost use Rattle.soundness.specs.LockFits.{lock_fits};

use crate::file_words::files_ok;
use crate::lock_words::{locks_agree, locks_fit};
use crate::open_words::opens_marked;
use crate::seen_words::all_seen;
use crate::session_words::sessions_marked;
use crate::tree_words::trees_marked;
use catalogue::rules::catalogue_ok;

// Whether the counts are within the room of their tables.
#[tactic(auto, unfolding(crate::specs::Sound::within_room))]
fn within_room(words: &[u64]) -> bool
    requires { length words.now ≡ 1605 }
    ensures { result ≡ within_room (word words.now 0) (word words.now 33) (word words.now 130) (word words.now 707) }
{
    words[0] <= 16 && words[33] <= 32 && words[130] <= 64 && words[707] <= 128
}

// The rules for locks; `files` has the file of each FID.
fn locks_ok(files: &[u8; 65], words: &[u64]) -> bool
    requires { (length files.now ≡ 65) × ((length words.now ≡ 641) × (word words.now 0 ≤ 128)) }
    ensures { result ≡ (table_fits lock_limits 128 words.now && all (lock_fits (file_in files.now)) (locks_in words.now)) && agree_all (file_in files.now) (locks_in words.now) }
{
    locks_fit(files, words) && locks_agree(files, words)
}

// Whether the words in use fit their fields and the tables are sound.
pub fn is_sound(words: &[u64]) -> bool
    requires { length words.now ≡ 1605 }
    ensures { result ≡ in_use_fit words.now && sound (tables_of words.now) }
{
    if !within_room(words) || !files_ok(&words[1348..1380]) {
        return false;
    }
    let Some(uids) = sessions_marked(&words[0..33]) else {
        return false;
    };
    let Some(codes) = trees_marked(&uids, &words[33..130]) else {
        return false;
    };
    let Some(files) = opens_marked(&codes, &words[130..707]) else {
        return false;
    };
    locks_ok(&files, &words[707..1348])
        && catalogue_ok(&words[1380..1605])
        && all_seen(&words[1348..1380], &words[130..707])
}
