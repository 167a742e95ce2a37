// Opens, in the words of their table: the rules of soundness, and the file of each FID.

ghost use Rattle.std.specs.Prelude.{◌≡◌, ◌<◌, ◌≤◌, length};
ghost use Rattle.numbers.specs.Column.{fid_of};
ghost use Rattle.tables.specs.Words.{word, record_at, open_of, open_limits};
ghost use Rattle.tables.specs.Written.{opens_in};
ghost use Rattle.soundness.specs.File.{file_table};
ghost use Rattle.numbers.specs.ByNumber.{by_number};
ghost use Rattle.soundness.specs.InWords.{table_in_order, told, holds_at, open_in, open_stands};

use crate::by_number::number_free;
use tables::fit::in_use;
use tables::open::open_at;

// The file of each FID from 0 to 64, and 255 where no open has it. The opens are gone through from
// the last, so that the first of two with one FID stands.
pub fn file_table(words: &[u64]) -> [u8; 65]
    requires { length words.now ≡ 577 }
    ensures { result ≡ file_table (opens_in words.now) }
{
    let mut files = [255u8; 65];
    for i in (0..in_use(words, 64)).rev() {
        let o = open_at(words, i);
        let fid = o.fid as usize;
        if fid < 65 {
            files[fid] = o.file;
        }
    }
    files
}

// Whether the tree with that TID is of that session and permits the access: "no open exceeds its tree's right".
#[tactic(auto, unfolding(crate::specs::InWords::holds_at, crate::specs::InWords::code_holds))]
fn holds_at(codes: &[u8], tid: u64, uid: u64, access: u64) -> bool
    ensures { result ≡ holds_at codes.now tid uid access }
{
    let at = tid as usize;
    if 65535 < uid || codes.len() <= at {
        return false;
    }
    let code = codes[at] as u64;
    code == 2 * uid + 2 || code == 2 * uid + 1 && access == 0
}

// Whether the words of an open fit, its FID is in order, its file, access and sharing code are among those listed, and its tree holds it;
// `files` has the opens behind it. What it remembers of its file is tested by `seen_words`, with the files.
fn open_stands(codes: &[u8; 33], files: &[u8; 65], words: &[u64], i: usize) -> bool
    requires { (length words.now ≡ 577) × (i < 64) }
    ensures { result ≡ open_stands codes.now files.now (record_at 9 words.now i) }
{
    let at = 1 + 9 * i;
    number_free(files, 255, words[at])
        && words[at + 3] <= 4294967295
        && words[at + 4] <= 15
        && words[at + 5] <= 2
        && (1..=4).contains(&words[at + 6])
        && words[at + 7] <= 1
        && holds_at(codes, words[at + 2], words[at + 1], words[at + 5])
}

// The rules for each open in use: where they hold, the file of each FID, 255 for none. `codes` has the trees.
pub(crate) fn opens_marked(codes: &[u8; 33], words: &[u64]) -> Option<[u8; 65]>
    requires { (length codes.now ≡ 33) × ((length words.now ≡ 577) × (word words.now 0 ≤ 64)) }
    ensures { result ≡ told (table_in_order open_limits 64 open_of 64 fid_of (open_in codes.now) words.now) (by_number fid_of (λ o. o.file) 255 65 (opens_in words.now)) }
{
    let mut files = [255u8; 65];
    for i in (0..words[0] as usize).rev() {
        if !open_stands(codes, &files, words, i) {
            return None;
        }
        let at = 1 + 9 * i;
        let fid = words[at] as usize;
        files[fid] = words[at + 4] as u8;
    }
    Some(files)
}
