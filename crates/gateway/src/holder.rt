// Who holds the lock in the way, in six words of the host's (document 02, CR 2).

ghost use Rattle.std.specs.Prelude.{◌≡◌};
ghost use Rattle.boundary.specs.Boundary.{holder_words};

use locks::types::Holder;

// The holder's words: all zero where there is none. Not `From`: Holder is of another crate, and so is an array.
pub(crate) fn put_holder(who: Option<Holder>, words: &mut [u64; 6])
    ensures { words.new ≡ holder_words who }
{
    match who {
        None => *words = [0, 0, 0, 0, 0, 0],
        Some(h) => {
            let l = h.lock;
            *words = [
                1,
                l.fid as u64,
                l.process as u64,
                h.place as u64,
                l.offset,
                l.length,
            ];
        }
    }
}
