// A file loaded, its size in the words: "A load sets the size and puts zeros after the loaded bytes, up to 4,096." Its change number is raised
// (document 02, CR 8).

ghost use Rattle.std.specs.Prelude.{◌≡◌, true, ◌++◌, ◌-◌, ◌≤◌, length, replicate};
ghost use Rattle.lists.specs.Walk.{any};
ghost use Rattle.tables.specs.Words.{word, tables_of};
ghost use Rattle.tables.specs.Written.{opens_in};
ghost use Rattle.soundness.specs.Sound.{sound};
ghost use Rattle.host.specs.HostCall.{is_of, load_number, load_file, load_memory};
ghost use Rattle.host.specs.Outcome.{number_in};
ghost use Rattle.host.specs.OnWords.{load_on_words, memory_on_words, Left};

use crate::answer::{Given, HostRefusal};
use soundness::whole::is_sound;
use tables::file::put_change;
use tables::open::open_at;
use wire::fill::clear;

// Whether an open in use is of the file.
fn some_open_of(words: &[u64], file: u8) -> bool
    requires { (length words.now ≡ 577) × (word words.now 0 ≤ 64) }
    ensures { result ≡ any (is_of file) (opens_in words.now) }
{
    (0..words[0] as usize).any(|i| open_at(words, i).file == file)
}

// Whether a load into sound tables and a whole file memory is refused, and why.
fn check_load(words: &[u64], file: u8, size: usize) -> Result<(), HostRefusal>
    requires { (length words.now ≡ 1605) × (sound (tables_of words.now) ≡ true) }
    ensures { number_in result ≡ load_number (tables_of words.now) file size 65536 }
{
    if 15 < file {
        return Err(HostRefusal::OutOfRange);
    }
    if 4096 < size {
        return Err(HostRefusal::OutOfRange);
    }
    if some_open_of(&words[130..707], file) {
        return Err(HostRefusal::FileOpen);
    }
    Ok(())
}

// The bytes, and zeros behind them.
fn fill_file(contents: &[u8], room: &mut [u8])
    requires { length contents.now ≤ length room.old }
    ensures { room.new ≡ contents.now ++ replicate (length room.old - length contents.now) 0 }
{
    let n = contents.len();
    room[..n].copy_from_slice(contents);
    clear(&mut room[n..]);
}

// A load into sound tables and a whole file memory.
fn load_sound(words: &mut [u64], file: u8, contents: &[u8], memory: &mut [u8]) -> Given
    requires { (length words.old ≡ 1605) × ((sound (tables_of words.old) ≡ true) × (length memory.old ≡ 65536)) }
    ensures left { Left (load_file (tables_of words.old) file contents.now memory.old) words.old words.new result }
    ensures memory_after { memory.new ≡ load_memory (tables_of words.old) file contents.now memory.old }
{
    let size = contents.len();
    check_load(words, file, size)?;
    let at = file as usize;
    let from = at * 4096;
    let to = from + 4096;
    fill_file(contents, &mut memory[from..to]);
    put_change(&mut words[1348..1380], at, size);
    Ok(0)
}

// "file memory 65,536": 16 files of 4,096 bytes.
pub const MEMORY: usize = 65536;

// The bytes of a file that has no open, put into the file memory.
pub fn load_file(words: &mut [u64; 1605], file: u8, contents: &[u8], memory: &mut [u8]) -> Given
    ensures left { Left (load_on_words words.old file contents.now memory.old) words.old words.new result }
    ensures memory_after { memory.new ≡ memory_on_words words.old file contents.now memory.old }
{
    if memory.len() != MEMORY {
        return Err(HostRefusal::WrongRoom);
    }
    if !is_sound(words) {
        return Err(HostRefusal::NotSound);
    }
    load_sound(words, file, contents, memory)
}
