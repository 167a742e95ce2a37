// One listed lock against what is asked, for locks, reads, writes and unlocks alike.

ghost use Rattle.std.specs.Prelude.{◌≡◌};
ghost use Rattle.locks.specs.Answer.{file_in, owns, bars, in_way, named};

use crate::range::overlap;
use crate::types::{Ask, Purpose};
use records::Lock;

// The file of a FID, 255 where the table has none, as the definitions have it.
#[tactic(auto, unfolding(crate::specs::Answer::file_in))]
pub fn file_in(files: &[u8; 65], fid: u16) -> u8
    ensures { result ≡ file_in files.now fid }
{
    let table: &[u8] = files;
    let at = fid as usize;
    if at < table.len() { table[at] } else { 255 }
}

// Whether the lock is the asker's: "An owner is a FID with a process."
#[tactic(auto, unfolding(crate::specs::Answer::owns))]
fn owned(q: Ask, l: Lock) -> bool
    ensures { result ≡ owns q l }
{
    l.fid == q.fid && l.process == q.process
}

// Whether an overlapping lock of the same file stands in the way of what is asked.
#[tactic(auto, unfolding(crate::specs::Answer::bars))]
fn barring(q: Ask, l: Lock) -> bool
    ensures { result ≡ bars q.purpose q l }
{
    match q.purpose {
        Purpose::Grant(shared) => !(l.shared && shared),
        Purpose::Read => !l.shared && !owned(q, l),
        Purpose::Write => l.shared || !owned(q, l),
        Purpose::Release => false,
    }
}

// Whether the lock stands in the way of what is asked; the overlap is tested first, since most locks
// lie elsewhere.
#[tactic(auto, unfolding(crate::specs::Answer::in_way))]
pub(crate) fn in_way(files: &[u8; 65], q: Ask, l: Lock) -> bool
    ensures { result ≡ in_way (file_in files.now) q l }
{
    overlap(l.offset, l.length, q.offset, q.length)
        && barring(q, l)
        && file_in(files, l.fid) == file_in(files, q.fid)
}

// Whether the lock is the one that an unlock names.
#[tactic(auto, unfolding(crate::specs::Answer::named))]
pub(crate) fn is_named(q: Ask, l: Lock) -> bool
    ensures { result ≡ named q l }
{
    l.offset == q.offset && l.length == q.length && owned(q, l)
}
