// What a host call gave, handed on to the host.

ghost use Rattle.std.specs.Prelude.{◌≡◌};
ghost use Rattle.host.specs.Outcome.{number_in};
ghost use Rattle.gateway.specs.Given.{given_after};

use host::answer::{Given, number_of};

// The number of the row; the number given out, or the answer, goes to where the host wants it, on 0 only.
pub(crate) fn hand_out(given: Given, to: &mut u16) -> u8
    ensures value { result ≡ number_in given }
    ensures to_after { to.new ≡ given_after to.old given }
{
    if let Ok(id) = given {
        *to = id;
    }
    number_of(given)
}
