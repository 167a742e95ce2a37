// Why a command or a message is refused, in document 01's order ("Refusals on the wire"); last what document 02's CR 6 adds, in its order.
// The status of each in both forms (CR 7).

ghost use Rattle.std.specs.Prelude.{◌≡◌};
ghost use Rattle.message.specs.Refusal.{forms, forms_of, holder_of};

use locks::types::Holder;

// A conflict, of a lock or of a read or write, names the holder: the first lock in the way, in the list as it then stands.
#[derive(Clone, Copy)]
pub enum Refusal {
    NotServed,
    NotSentence,
    NoSession,
    NoTree,
    NoOpen,
    NoAccess,
    LockType,
    NoSuchLock,
    PassesEnd,
    LockNotGranted(Holder),
    FileLockConflict(Holder),
    NoRecord,
    NoSpace,
    OpenMode,
    BadAccess,
    NoSuchFile,
    BadShare,
    NoFids,
}

// An SMBSTATUS: 0/0 where everything was done. Numbers of the wire, which `forms_of` has for each refusal.
#[derive(Clone, Copy)]
pub struct Status {
    pub class: u8,
    pub code: u16,
}

// The same beside it as an NTSTATUS, for a request that asks for that form (document 02, CR 7).
#[derive(Clone, Copy)]
pub struct Forms {
    pub status: Status,
    pub nt: u32,
}

// A status in both forms beside each other.
#[tactic(auto, unfolding(crate::specs::Refusal::status))]
pub fn both_forms(class: u8, code: u16, nt: u32) -> Forms
    ensures { result ≡ forms class code nt }
{
    let status = Status { class, code };
    Forms { status, nt }
}

// The list: document 01's class and code of each refusal, and beside it document 02's NTSTATUS.
#[tactic(auto, unfolding(crate::specs::Refusal::forms_of, crate::specs::Refusal::status))]
pub fn forms_of(why: Refusal) -> Forms
    ensures { result ≡ forms_of why }
{
    match why {
        Refusal::NotServed => both_forms(2, 22, 0x00160002),
        Refusal::NotSentence => both_forms(2, 1, 0x00010002),
        Refusal::NoSession => both_forms(2, 91, 0x005b0002),
        Refusal::NoTree => both_forms(2, 5, 0x00050002),
        Refusal::NoOpen => both_forms(1, 6, 0xc0000008),
        Refusal::NoAccess => both_forms(1, 5, 0xc0000022),
        Refusal::LockType => both_forms(2, 65535, 0xc00000bb),
        Refusal::NoSuchLock => both_forms(1, 158, 0xc000007e),
        Refusal::PassesEnd => both_forms(1, 87, 0xc000000d),
        Refusal::LockNotGranted(_) => both_forms(1, 33, 0xc0000055),
        Refusal::FileLockConflict(_) => both_forms(1, 33, 0xc0000054),
        Refusal::NoRecord => both_forms(1, 8, 0xc0000205),
        Refusal::NoSpace => both_forms(3, 39, 0xc000007f),
        Refusal::OpenMode => both_forms(2, 65535, 0xc00000bb),
        Refusal::BadAccess => both_forms(1, 12, 0x000c0001),
        Refusal::NoSuchFile => both_forms(1, 2, 0xc000000f),
        Refusal::BadShare => both_forms(1, 32, 0xc0000043),
        Refusal::NoFids => both_forms(1, 4, 0xc000011f),
    }
}

// The holder that a refusal names.
#[tactic(auto, unfolding(crate::specs::Refusal::holder_of))]
pub fn holder_of(why: Refusal) -> Option<Holder>
    ensures { result ≡ holder_of why }
{
    match why {
        Refusal::LockNotGranted(h) | Refusal::FileLockConflict(h) => Some(h),
        _ => None,
    }
}
