// A host's argument of 32 bits, cut to the width of its field. A call answers a number that the field cannot hold as it does the field's largest.
// Not `try_from`: `min` is what the clauses say.

ghost use Rattle.std.specs.Prelude.{◌≡◌, min};

// A UID or a TID: sound tables have none above 32, so 65,535 is nobody's, as the number given is.
pub(crate) fn to_number(x: u32) -> u16
    ensures { result ≡ min x 65535 }
{
    x.min(65535) as u16
}

// A right, a file or an access: 255 is out of range, as the number given is.
pub(crate) fn to_small(x: u32) -> u8
    ensures { result ≡ min x 255 }
{
    x.min(255) as u8
}
