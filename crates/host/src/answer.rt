// What a host call gives back (document 01, "What a call returns").

ghost use Rattle.std.specs.Prelude.{◌≡◌};
ghost use Rattle.host.specs.Outcome.{row_number, number_in};

use records::Tables;

// Row 0: the call was done.
pub const DONE: u8 = 0;

// Why a call is refused: the other rows of the table, by number. Row 1 and the reply room of row 2 are a message's.
#[derive(Clone, Copy)]
pub enum HostRefusal {
    WrongRoom = 2,
    NotSound = 4,
    Full = 5,
    NoSuch = 6,
    OutOfRange = 7,
    ExceedsRight = 8,
    FileOpen = 9,
}

impl HostRefusal {
    // The number of its row. Not `From` for u8, which would lose the word that the clause has for it.
    pub fn number(self) -> u8
        ensures { result ≡ row_number self }
    {
        self as u8
    }
}

// The row of a call on the words, and what it gave out: a number or an answer, 0 where it gives none. The tables after the call are
// in the words. One type for all calls, 0 where a call gives nothing: `Left` and `Gives` (specs/OnWords.antt), and boundary's definitions, say the number
// of every call, and the C interface writes it.
pub type Given = Result<u16, HostRefusal>;

// The number of the row.
pub fn number_of(given: Given) -> u8
    ensures { result ≡ number_in given }
{
    match given {
        Ok(_) => DONE,
        Err(why) => why.number(),
    }
}

// The row, the number given out or the answer given (0 where none was), and the tables after the call: the value of the definitions
// (specs/HostCall.antt), whose theorems speak of the number, so it is no Result.
#[derive(Clone, Copy)]
pub struct Returned {
    pub number: u8,
    pub id: u16,
    pub tables: Tables,
}
