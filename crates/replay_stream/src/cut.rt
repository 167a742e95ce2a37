// How the stream is cut: pieces of 1, 2, 3 .. 120 bytes, then of 1 again.

ghost use Rattle.std.specs.Prelude.{◌≤◌};

// "a TCP stream cuts where it likes": here a piece has so many bytes at most.
const LONGEST_PIECE: usize = 120;

// What of a piece is left, from a place up to its end, and how long the piece was to be.
#[derive(Clone, Copy)]
pub(crate) struct Cut {
    pub at: usize,
    pub end: usize,
    pub size: usize,
}

// The next piece of a stream of that length.
fn cut_at(at: usize, size: usize, length: usize) -> Cut
    requires { at ≤ length }
    ensures { (result.at ≤ result.end) × (result.end ≤ length) }
{
    Cut {
        at,
        end: at + size.min(length - at),
        size,
    }
}

pub(crate) fn first_cut(length: usize) -> Cut
    ensures { (result.at ≤ result.end) × (result.end ≤ length) }
{
    cut_at(0, 1, length)
}

// Behind the bytes taken: the rest of the piece, or the next piece where nothing is left.
pub(crate) fn next_cut(cut: Cut, taken: usize, length: usize) -> Cut
    requires at_le_end { cut.at ≤ cut.end }
    requires end_in_bounds { cut.end ≤ length }
    ensures { (result.at ≤ result.end) × (result.end ≤ length) }
{
    let at = cut.at + taken.min(cut.end - cut.at);
    if at < cut.end {
        return Cut {
            at,
            end: cut.end,
            size: cut.size,
        };
    }
    cut_at(at, cut.size % LONGEST_PIECE + 1, length)
}
