// Words copied.

ghost use Rattle.std.specs.Prelude.{◌≡◌, length};

// All words of one slice, into another of its length.
pub fn copy_words(to: &mut [u64], from: &[u64])
    requires { length to.old ≡ length from.now }
    ensures { to.new ≡ from.now }
{
    to.copy_from_slice(from);
}
