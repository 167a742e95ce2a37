// The numbers of a table's records, in the words of the table.

ghost use Rattle.std.specs.Prelude.{◌≡◌, map, ◌+◌, ◌*◌, ◌<◌, ◌≤◌, length};
ghost use Rattle.tables.specs.Written.{sessions_in, trees_in, opens_in};
ghost use Rattle.numbers.specs.Number.{contains, smallest_free};
ghost use Rattle.numbers.specs.Column.{uid_of, tid_of, fid_of};
ghost use Rattle.numbers.specs.ColumnWords.{numbers_in, marks_of};

use tables::cut::low16;
use tables::fit::in_use;

// Which numbers from 0 to 65 the first count records have, 1 for each; a record has `step` words.
fn marks(words: &[u64], step: usize, count: usize) -> [u8; 66]
    requires { (0 < step) × ((count ≤ 64) × (step * count < length words.now)) }
    ensures { result ≡ marks_of (numbers_in step count words.now) }
{
    let mut marks = [0u8; 66];
    for i in (0..count).rev() {
        let number = low16(words[1 + step * i]) as usize;
        if number < 66 {
            marks[number] = 1;
        }
    }
    marks
}

// The smallest number from 1 that none of the first count records has.
fn smallest_free(words: &[u64], step: usize, count: usize) -> u16
    requires { (0 < step) × ((count ≤ 64) × (step * count < length words.now)) }
    ensures { result ≡ smallest_free (numbers_in step count words.now) }
{
    let table = marks(words, step, count);
    for i in 0..count {
        if table[i + 1] != 1 {
            return (i + 1) as u16;
        }
    }
    (count + 1) as u16
}

// The smallest UID not in use; likewise for trees and opens.
pub fn free_uid(words: &[u64]) -> u16
    requires { length words.now ≡ 33 }
    ensures { result ≡ smallest_free (map uid_of (sessions_in words.now)) }
{
    smallest_free(words, 2, in_use(words, 16))
}

pub fn free_tid(words: &[u64]) -> u16
    requires { length words.now ≡ 97 }
    ensures { result ≡ smallest_free (map tid_of (trees_in words.now)) }
{
    smallest_free(words, 3, in_use(words, 32))
}

pub fn free_fid(words: &[u64]) -> u16
    requires { length words.now ≡ 577 }
    ensures { result ≡ smallest_free (map fid_of (opens_in words.now)) }
{
    smallest_free(words, 9, in_use(words, 64))
}

// Whether one of the first count records has that number.
fn has_number(words: &[u64], step: usize, count: usize, number: u16) -> bool
    requires { (0 < step) × ((count ≤ 64) × (step * count < length words.now)) }
    ensures { result ≡ contains number (numbers_in step count words.now) }
{
    (0..count).any(|i| low16(words[1 + step * i]) == number)
}

// Whether a session in use has that UID.
pub fn has_session(words: &[u64], uid: u16) -> bool
    requires { length words.now ≡ 33 }
    ensures { result ≡ contains uid (map uid_of (sessions_in words.now)) }
{
    has_number(words, 2, in_use(words, 16), uid)
}

// The same for trees and opens.
pub fn has_tree(words: &[u64], tid: u16) -> bool
    requires { length words.now ≡ 97 }
    ensures { result ≡ contains tid (map tid_of (trees_in words.now)) }
{
    has_number(words, 3, in_use(words, 32), tid)
}

pub fn has_open(words: &[u64], fid: u16) -> bool
    requires { length words.now ≡ 577 }
    ensures { result ≡ contains fid (map fid_of (opens_in words.now)) }
{
    has_number(words, 9, in_use(words, 64), fid)
}
