// Removal: the records that are named go, each with what hangs on it. CLOSE, TREE_DISCONNECT, LOGOFF,
// PROCESS_EXIT and a dropped connection are each one value of `Gone`.
#![tactic(auto)]

mod filter;
pub mod locks;
pub mod marks;
pub mod opens;
pub mod sessions;
pub mod sweep;
pub mod trees;

ghost use Rattle.std.specs.Prelude.{◌≡◌};
ghost use Rattle.removal.specs.Removal.{tree_named, open_named, session_stays};

use records::{Open, Session, Tree};

// What goes: the sessions of a connection, a session by its UID, a tree by its TID, an open by its
// FID, or the opens of a UID and a process.
#[derive(Clone, Copy)]
pub enum Gone {
    Connection(u32),
    Session(u16),
    Tree(u16),
    Open(u16),
    Process(u16, u32),
}

fn session_stays(gone: Gone, s: Session) -> bool
    ensures { result ≡ session_stays gone s }
{
    match gone {
        Gone::Connection(c) => s.connection != c,
        Gone::Session(uid) => s.uid != uid,
        Gone::Tree(_) => true,
        Gone::Open(_) => true,
        Gone::Process(_, _) => true,
    }
}

fn tree_named(gone: Gone, t: Tree) -> bool
    ensures { result ≡ tree_named gone t }
{
    match gone {
        Gone::Connection(_) => false,
        Gone::Session(_) => false,
        Gone::Tree(tid) => t.tid == tid,
        Gone::Open(_) => false,
        Gone::Process(_, _) => false,
    }
}

fn open_named(gone: Gone, o: Open) -> bool
    ensures { result ≡ open_named gone o }
{
    match gone {
        Gone::Connection(_) => false,
        Gone::Session(_) => false,
        Gone::Tree(_) => false,
        Gone::Open(fid) => o.fid == fid,
        Gone::Process(uid, process) => { o.uid == uid && o.process == process }
    }
}
