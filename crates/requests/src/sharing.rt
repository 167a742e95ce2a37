// What opens of one file deny each other (document 02, CR 6): "sharing codes 1 to 4: deny both, deny write, deny read, deny none". Access 0 is
// reading, 1 writing, 2 both.

ghost use Rattle.std.specs.Prelude.{◌≡◌, ◌&&◌, ◌||◌, length, ◌==◌};
ghost use Rattle.lists.specs.Walk.{any};
ghost use Rattle.tables.specs.Written.{opens_in};
ghost use Rattle.message.specs.Sharing.{reads, writes, denies_reading, denies_writing, denied, kept_out};

use records::Open;
use tables::fit::in_use;
use tables::open::open_at;

// Whether the code is one of the two.
fn is_either(code: u8, one: u8, other: u8) -> bool
    ensures { result ≡ (code == one) || (code == other) }
{
    code == one || code == other
}

// Whether reading goes with the access and is denied by the sharing code.
#[tactic(auto, unfolding(message::specs::Sharing::reads, message::specs::Sharing::denies_reading))]
fn reading_denied(access: u8, sharing: u8) -> bool
    ensures { result ≡ reads access && denies_reading sharing }
{
    is_either(access, 0, 2) && is_either(sharing, 1, 3)
}

// The same of writing.
#[tactic(auto, unfolding(message::specs::Sharing::writes, message::specs::Sharing::denies_writing))]
fn writing_denied(access: u8, sharing: u8) -> bool
    ensures { result ≡ writes access && denies_writing sharing }
{
    is_either(access, 1, 2) && is_either(sharing, 1, 2)
}

// Whether either is.
#[tactic(auto, unfolding(message::specs::Sharing::denied))]
fn is_denied(access: u8, sharing: u8) -> bool
    ensures { result ≡ denied access sharing }
{
    reading_denied(access, sharing) || writing_denied(access, sharing)
}

// "An open fails if it asks what another open of the file denies or denies what one has".
#[tactic(auto, unfolding(message::specs::Sharing::kept_out))]
fn keeps_out(o: Open, file: u8, access: u8, sharing: u8) -> bool
    ensures { result ≡ kept_out file access sharing o }
{
    o.file == file && (is_denied(access, o.sharing) || is_denied(o.access, sharing))
}

// Whether an open in use does so: of whatever session, the asker's own and the host's included.
pub(crate) fn some_keeps_out(words: &[u64], file: u8, access: u8, sharing: u8) -> bool
    requires { length words.now ≡ 577 }
    ensures { result ≡ any (kept_out file access sharing) (opens_in words.now) }
{
    (0..in_use(words, 64)).any(|i| keeps_out(open_at(words, i), file, access, sharing))
}
