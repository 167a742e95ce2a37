// One block of a chain carried out.

ghost use Rattle.std.specs.Prelude.{◌≡◌, ◌+◌, ◌≤◌, true, length, take, drop, Some as Whole};
ghost use Rattle.tables.specs.Words.{tables_of, in_use_fit};
ghost use Rattle.chain.specs.Layout.{byte_area, byte_count};
ghost use Rattle.chain.specs.Parse.{parse};
ghost use Rattle.message.specs.Command.{do_locking, do_write, name_asked, do_open, perform};
ghost use Rattle.message.specs.Given.{Gives};
ghost use Rattle.message.specs.JustOpened.{body_meant};
ghost use Rattle.message.specs.Message.{area_of, data_of};
ghost use Rattle.invariants.specs.Sound.{Good};
ghost use Rattle.requests.specs.BlockPart.{LockingPart, OpeningPart};
ghost use Rattle.requests.specs.CorePart.{in_form};
ghost use Rattle.requests.specs.Leaves.{Leaves, performed};

use crate::core_commands::{do_range, in_form};
use crate::leaving::{do_close, do_disconnect, do_exit, do_logoff};
use crate::locking::do_locking;
use crate::opening::do_open;
use crate::reading::do_read;
use crate::sizing::do_set_size;
use crate::work::{Work, work_of};
use crate::writing::do_write;
use chain::block::{Block, LockingFields, OpenFields, WriteFields};
use message::answer::Answer;
use message::caller::Caller;
use message::refusal::Refusal;

// A LOCKING block has 8 words: its bytes start 3 + 2 * 8 places behind its own start.
const AREA: usize = 19;

// The LOCKING block at that place and of that length, its ranges being its byte area.
fn locking_block(
    c: Caller,
    words: &mut [u64],
    f: LockingFields,
    s: &[u8],
    at: usize,
    size: usize,
) -> Result<Answer, Refusal>
    requires words_len { length words.old ≡ 1605 }
    requires good { Good (tables_of words.old) }
    requires locking_part { LockingPart s.now at size }
    ensures leaves { Leaves (λ m. do_locking c (tables_of words.old) m f (take (byte_count s.now at) (drop (byte_area s.now at) s.now))) (tables_of words.old) (performed result (tables_of words.new)) }
    ensures words_after { in_use_fit words.old ≡ true → in_use_fit words.new ≡ true }
{
    let from = at + AREA;
    let to = at + size;
    do_locking(c, words, f, &s[from..to])
}

// An OPEN block has 15 words: its bytes start 3 + 2 * 15 places behind its own start.
const NAME: usize = 33;

// The OPEN block at that place and of that length: "a name .., then one zero byte".
fn opening_block(
    c: Caller,
    words: &mut [u64],
    f: OpenFields,
    s: &[u8],
    at: usize,
    size: usize,
) -> Result<Answer, Refusal>
    requires words_len { length words.old ≡ 1605 }
    requires good { Good (tables_of words.old) }
    requires opening_part { OpeningPart s.now at size }
    ensures leaves { Leaves (λ m. do_open c (tables_of words.old) m f (name_asked (take (byte_count s.now at) (drop (byte_area s.now at) s.now)))) (tables_of words.old) (performed result (tables_of words.new)) }
    ensures words_after { in_use_fit words.old ≡ true → in_use_fit words.new ≡ true }
{
    let from = at + NAME;
    let to = at + size - 1;
    do_open(c, words, f, &s[from..to])
}

// A WRITE block, or a core WRITE block of some bytes, its data being a part of the message.
fn writing_block(
    c: Caller,
    words: &mut [u64],
    f: WriteFields,
    s: &[u8],
    memory: &mut [u8],
    core: bool,
) -> Result<Answer, Refusal>
    requires words_len { length words.old ≡ 1605 }
    requires good { Good (tables_of words.old) }
    requires memory_len { length memory.old ≡ 65536 }
    requires count_in_bounds { f.from + f.count ≤ length s.now }
    ensures gives { Gives (in_form core (do_write c (tables_of words.old) memory.old f (take f.count (drop f.from s.now)))) (tables_of words.old) memory.old (performed result (tables_of words.new)) memory.new }
    ensures words_after { in_use_fit words.old ≡ true → in_use_fit words.new ≡ true }
{
    let from = f.from;
    let to = from + f.count as usize;
    let answer = do_write(c, words, f, &s[from..to], memory)?;
    Ok(in_form(core, answer))
}

// The block `b` of the message `s`; `just` is what FID 0xFFFF means in it (document 02, CR 6).
pub fn perform_block(
    c: Caller,
    words: &mut [u64],
    s: &[u8],
    b: Block,
    just: u16,
    memory: &mut [u8],
) -> Result<Answer, Refusal>
    requires words_len { length words.old ≡ 1605 }
    requires good { Good (tables_of words.old) }
    requires memory_len { length memory.old ≡ 65536 }
    requires at_value { parse s.now b.command b.at ≡ Whole b }
    ensures gives { Gives (perform c (tables_of words.old) memory.old (body_meant just b.body) (area_of s.now b) (data_of s.now b)) (tables_of words.old) memory.old (performed result (tables_of words.new)) memory.new }
    ensures words_after { in_use_fit words.old ≡ true → in_use_fit words.new ≡ true }
{
    match work_of(just, b.body) {
        Work::Read(f, core) => {
            let answer = do_read(c, words, f)?;
            Ok(in_form(core, answer))
        }
        Work::Write(f, core) => writing_block(c, words, f, s, memory, core),
        Work::Locking(f) => locking_block(c, words, f, s, b.at, b.length),
        Work::Close(fid) => do_close(c, words, fid),
        Work::Logoff => do_logoff(c, words),
        Work::TreeDisconnect => do_disconnect(c, words),
        Work::ProcessExit => do_exit(c, words),
        Work::SetSize(f) => do_set_size(c, words, f, memory),
        Work::Range(f, unlocks, locks) => do_range(c, words, f, unlocks, locks),
        Work::Open(f) => opening_block(c, words, f, s, b.at, b.length),
    }
}
