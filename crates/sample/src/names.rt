// A catalogue written down shortly, for the programs that hand one over: its words as one byte each.

ghost use Rattle.std.specs.Prelude.{◌≡◌, ◌≤◌};
ghost use Rattle.sample.specs.Names.{catalogue_words};

use wire::byte_at;

// The words out of the bytes from a place on. What stands behind the end reads as 0, so that names not in use may be left out.
pub fn catalogue_words(s: &[u8], at: usize) -> [u64; 225]
    requires { at ≤ 262144 }
    ensures { result ≡ catalogue_words s.now at }
{
    let mut given = [0u64; 225];
    for i in 0..225 {
        given[i] = u64::from(byte_at(s, at + i));
    }
    given
}
