// Tables by number: one entry for each UID, TID or FID. They are bytes with a value for none, and no Options: the definitions (`by_number`, `file_table`)
// and the theorems over them say these values, and a table is made for each message.

ghost use Rattle.std.specs.Prelude.{◌≡◌};
ghost use Rattle.numbers.specs.ByNumber.{number_free};
ghost use Rattle.soundness.specs.InWords.{marked};

// Whether a number is one of the table's, from 1 on, and nothing stands there yet.
#[tactic(auto, unfolding(numbers::specs::ByNumber::number_free))]
pub(crate) fn number_free(table: &[u8], none: u8, number: u64) -> bool
    ensures { result ≡ number_free none table.now number }
{
    let at = number as usize;
    1 <= number && at < table.len() && table[at] == none
}

// Whether the number has the mark 1.
#[tactic(auto, unfolding(crate::specs::InWords::marked))]
pub(crate) fn is_marked(table: &[u8], number: u64) -> bool
    ensures { result ≡ marked table.now number }
{
    let at = number as usize;
    at < table.len() && table[at] == 1
}
