// Who may ask: the session, the tree and the open that a command names.

ghost use Rattle.std.specs.Prelude.{◌≡◌, length};
ghost use Rattle.lists.specs.Walk.{any, found};
ghost use Rattle.tables.specs.Written.{sessions_in, opens_in};
ghost use Rattle.message.specs.Command.{is_session, is_open};
ghost use Rattle.tables.specs.Words.{tables_of};
ghost use Rattle.requests.specs.Reach.{session_reached, tree_reached, reached, reached_at};

use message::caller::Caller;
use message::refusal::Refusal;
use records::{Open, Session};
use soundness::tree_words::some_tree_is;
use tables::fit::in_use;
use tables::open::open_at;
use tables::session::session_at;

// Whether the session has the caller's UID and is on its connection.
#[tactic(auto, unfolding(message::specs::Command::is_session))]
fn session_is(c: Caller, s: Session) -> bool
    ensures { result ≡ is_session c s }
{
    s.uid == c.uid && s.connection == c.connection
}

// Whether some session in use does.
fn session_named(c: Caller, words: &[u64]) -> bool
    requires { length words.now ≡ 33 }
    ensures { result ≡ any (is_session c) (sessions_in words.now) }
{
    (0..in_use(words, 16)).any(|i| session_is(c, session_at(words, i)))
}

// Whether the open has that FID and the caller's UID and TID.
#[tactic(auto, unfolding(message::specs::Command::is_open))]
fn open_is(c: Caller, fid: u16, o: Open) -> bool
    ensures { result ≡ is_open c fid o }
{
    o.fid == fid && o.uid == c.uid && o.tid == c.tid
}

// The first such open and its place, or 1/6.
fn find_open(c: Caller, fid: u16, words: &[u64]) -> Result<(Open, usize), Refusal>
    requires { length words.now ≡ 577 }
    ensures { result ≡ reached_at (found (is_open c fid) (opens_in words.now)) (opens_in words.now) }
{
    let count = in_use(words, 64);
    // A `for`: the open that is tested is handed on, and behind `position` it would be read once more.
    for i in 0..count {
        let o = open_at(words, i);
        if open_is(c, fid, o) {
            return Ok((o, i));
        }
    }
    Err(Refusal::NoOpen)
}

// "2/91 no session of that UID on this connection".
pub(crate) fn reach_session(c: Caller, words: &[u64]) -> Result<(), Refusal>
    requires { length words.now ≡ 1605 }
    ensures { result ≡ session_reached c (tables_of words.now) }
{
    if !session_named(c, &words[0..33]) {
        return Err(Refusal::NoSession);
    }
    Ok(())
}

// "2/5 no tree of that TID and UID", behind it.
pub(crate) fn reach_tree(c: Caller, words: &[u64]) -> Result<(), Refusal>
    requires { length words.now ≡ 1605 }
    ensures { result ≡ tree_reached c (tables_of words.now) }
{
    reach_session(c, words)?;
    if !some_tree_is(&words[33..130], c.tid, c.uid) {
        return Err(Refusal::NoTree);
    }
    Ok(())
}

// "1/6 no open of that FID, UID and TID", behind both. The open that a command names, and its place.
pub(crate) fn reach_open(c: Caller, words: &[u64], fid: u16) -> Result<(Open, usize), Refusal>
    requires { length words.now ≡ 1605 }
    ensures { result ≡ reached c (tables_of words.now) fid }
{
    reach_tree(c, words)?;
    find_open(c, fid, &words[130..707])
}
