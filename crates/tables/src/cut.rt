// Between words and narrower fields.

ghost use Rattle.std.specs.Prelude.{◌≡◌, cond, ◌%◌};

// A word cut to 8, 16 and 32 bits, each by its own modulus: a cast must fit, so the cut stands before it.
pub fn low8(x: u64) -> u8
    ensures { result ≡ x % 256 }
{
    (x % 256) as u8
}

pub fn low16(x: u64) -> u16
    ensures { result ≡ x % 65536 }
{
    (x % 65536) as u16
}

pub fn low32(x: u64) -> u32
    ensures { result ≡ x % 4294967296 }
{
    (x % 4294967296) as u32
}

// 1 for true and 0 for false.
pub fn flag(x: bool) -> u64
    ensures { result ≡ cond x 1 0 }
{
    u64::from(x)
}
