// Ranges in whole numbers: no sum here can pass 64 bits.

ghost use Rattle.std.specs.Prelude.{◌≡◌};
ghost use Rattle.locks.specs.Range.{overlaps, passes_end};

// Whether some byte is in both [a, a + n) and [b, b + m).
#[tactic(auto, unfolding(crate::specs::Range::overlaps))]
pub fn overlap(a: u64, n: u64, b: u64, m: u64) -> bool
    ensures { result ≡ overlaps a n b m }
{
    n != 0 && m != 0 && if a <= b { b - a < n } else { a - b < m }
}

// Whether the range ends past 2^64.
#[tactic(auto, unfolding(crate::specs::Range::passes_end))]
pub fn passes_end(offset: u64, length: u64) -> bool
    ensures { result ≡ passes_end offset length }
{
    length != 0 && u64::MAX - offset < length - 1
}
