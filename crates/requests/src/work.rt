// What a block asks for. A core READ asks for what a READ does, and a core WRITE of some bytes for what a WRITE does: the reply block
// alone differs (document 02, CR 3), and `core` says which it is. So one call carries out both, at one place: from a function that is
// called at two the answers of all commands would come back through memory, which took 12 ns for each block of a chain.

ghost use Rattle.std.specs.Prelude.{◌≡◌};
ghost use Rattle.message.specs.JustOpened.{body_meant};
ghost use Rattle.requests.specs.WorkPart.{read_meant, core_work, work_of};

use chain::block::{Body, LockingFields, OpenFields, RangeFields, ReadFields, WriteFields};

#[derive(Clone, Copy)]
pub(crate) enum Work {
    Locking(LockingFields),
    Read(ReadFields, bool),
    Write(WriteFields, bool),
    Close(u16),
    Logoff,
    TreeDisconnect,
    ProcessExit,
    SetSize(WriteFields),
    Range(RangeFields, u16, u16),
    Open(OpenFields),
}

// "A core WRITE of count 0 sets the file's size to the offset".
#[tactic(auto, unfolding(crate::specs::WorkPart::core_work))]
fn core_work(f: WriteFields) -> Work
    ensures { result ≡ core_work f }
{
    if f.count == 0 {
        Work::SetSize(f)
    } else {
        Work::Write(f, true)
    }
}

// What a READ asks for where FID 0xFFFF means `just`, "the file just opened".
#[tactic(auto, unfolding(crate::specs::WorkPart::read_meant, message::specs::JustOpened::fid_meant))]
fn read_meant(just: u16, f: ReadFields) -> ReadFields
    ensures { result ≡ read_meant just f }
{
    if f.fid != 0xffff {
        return f;
    }
    ReadFields { fid: just, ..f }
}

// LOCK_BYTE_RANGE locks one range, and UNLOCK_BYTE_RANGE unlocks one.
#[tactic(auto, unfolding(crate::specs::WorkPart::work_of, crate::specs::WorkPart::read_meant, message::specs::JustOpened::body_meant))]
pub(crate) fn work_of(just: u16, body: Body) -> Work
    ensures { result ≡ work_of (body_meant just body) }
{
    match body {
        Body::Locking(f) => Work::Locking(f),
        Body::Read(f) => Work::Read(read_meant(just, f), false),
        Body::Write(f) => Work::Write(f, false),
        Body::Close(fid) => Work::Close(fid),
        Body::Logoff => Work::Logoff,
        Body::TreeDisconnect => Work::TreeDisconnect,
        Body::ProcessExit => Work::ProcessExit,
        Body::CoreRead(f) => Work::Read(f, true),
        Body::CoreWrite(f) => core_work(f),
        Body::LockByteRange(f) => Work::Range(f, 0, 1),
        Body::UnlockByteRange(f) => Work::Range(f, 1, 0),
        Body::Open(f) => Work::Open(f),
    }
}
