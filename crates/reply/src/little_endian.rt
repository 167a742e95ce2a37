// A number's two bytes ("little-endian"). They are cut from a usize, of which a field may hold the lower half alone: `to_le_bytes` would give
// eight bytes, and of a u16 it would ask for a bound first.

ghost use Rattle.std.specs.Prelude.{◌≡◌, ◌/◌, ◌%◌};

// The lower byte.
pub(crate) fn low(n: usize) -> u8
    ensures { result ≡ n % 256 }
{
    (n % 256) as u8
}

// The byte above it.
pub(crate) fn high(n: usize) -> u8
    ensures { result ≡ n / 256 % 256 }
{
    (n / 256 % 256) as u8
}
