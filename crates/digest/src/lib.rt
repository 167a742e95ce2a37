// A digest of numbers: a polynomial in 257, modulo the largest prime below 2^32.
#![tactic(auto)]

ghost use Rattle.std.specs.Prelude.{◌≡◌, ◌<◌};
ghost use Rattle.digest.specs.Digest.{added, digest};

const PRIME: u64 = 4294967291;

// One number more.
fn added(d: u64, x: u64) -> u64
    requires { d < 4294967291 }
    ensures { (result ≡ added d x) × (result < 4294967291) }
{
    (d * 257 + x % PRIME + 1) % PRIME
}

// Numbers added to a digest.
pub fn digest_words(start: u64, words: &[u64]) -> u64
    requires { start < 4294967291 }
    ensures { (result ≡ digest start words.now) × (result < 4294967291) }
{
    let mut d = start;
    for x in words {
        d = added(d, *x);
    }
    d
}

// Bytes added to a digest. One function over any `T: Into<u64>` would be no plainer: what it promises would speak of the list of what the
// elements convert to, and each caller would first have to show that this is the list that it lends.
pub fn digest_bytes(start: u64, bytes: &[u8]) -> u64
    requires { start < 4294967291 }
    ensures { result ≡ digest start bytes.now }
{
    let mut d = start;
    for b in bytes {
        d = added(d, u64::from(*b));
    }
    d
}

// The words of the tables, then the file memory.
pub fn state_digest(words: &[u64], memory: &[u8]) -> u64
    ensures { result ≡ digest (digest 0 words.now) memory.now }
{
    digest_bytes(digest_words(0, words), memory)
}
