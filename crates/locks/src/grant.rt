// What the ranges of a request ask for.

ghost use Rattle.std.specs.Prelude.{◌≡◌, ◌-◌, ◌<◌, ◌≤◌};
ghost use Rattle.lists.specs.Walk.{any};
ghost use Rattle.locks.specs.Wire.{ranges_at};
ghost use Rattle.locks.specs.Request.{ask_of, lock_of, range_passes};

use crate::range::passes_end;
use crate::types::{Ask, LockRange, Purpose};
use crate::wire_form::range_at;
use records::Lock;

// What is asked of the list for one range of a request.
#[tactic(auto, unfolding(crate::specs::Request::ask_of))]
pub(crate) fn ask_of(fid: u16, purpose: Purpose, r: LockRange) -> Ask
    ensures { result ≡ ask_of fid purpose r }
{
    Ask {
        fid,
        process: r.process,
        offset: r.offset,
        length: r.length,
        purpose,
    }
}

// The lock that a range asks for.
#[tactic(auto, unfolding(crate::specs::Request::lock_of))]
pub(crate) fn lock_of(fid: u16, shared: bool, r: LockRange) -> Lock
    ensures { result ≡ lock_of fid shared r }
{
    Lock {
        fid,
        process: r.process,
        offset: r.offset,
        length: r.length,
        shared,
    }
}

// Whether one of the ranges from..to of the area passes 2^64.
pub(crate) fn some_passes(area: &[u8], large: bool, from: usize, to: usize) -> bool
    requires { (from ≤ to) × (to < 131072) }
    ensures { result ≡ any range_passes (ranges_at large area.now from (to - from)) }
{
    for k in from..to {
        let r = range_at(area, large, k);
        if passes_end(r.offset, r.length) {
            return true;
        }
    }
    false
}
