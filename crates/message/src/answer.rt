// What a command gave, as the code hands it on: `Result<Answer, Refusal>`.

use crate::refusal::Refusal;
use records::Tables;

// What the reply block of a command done says. The bytes that a READ yields are not copied out: `Read(place, count)` says where
// they stand in the file memory. `CoreRead` and `CoreWrote` say the same in the blocks of the core commands.
// `Opened` says the FID, the size, the access and OpenResults.
#[derive(Clone, Copy)]
pub enum Answer {
    Locked,
    LoggedOff,
    Read(usize, usize),
    Wrote(u16),
    Plain,
    CoreRead(usize, usize),
    CoreWrote(u16),
    Opened(u16, usize, u8, u8),
}

// The answer, or why the command is refused, and the tables that it left.
#[derive(Clone, Copy)]
pub struct Performed {
    pub answer: Result<Answer, Refusal>,
    pub tables: Tables,
}
