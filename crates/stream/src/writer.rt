// The writer: a message behind its session header.

ghost use Rattle.std.specs.Prelude.{◌≡◌, ◌≤◌, ◌<◌, length};
ghost use Rattle.lists.specs.Put.{put};
ghost use Rattle.stream.specs.Stream.{header_of};
ghost use Rattle.stream.specs.Writer.{write};
ghost use Rattle.stream.specs.Told.{write_number, written_told};

use wire::fill::lay;

// "the writer takes up to 12,292"
pub const LONGEST_WRITTEN: usize = 12292;

// Why nothing is written: the message is longer than that, or the room is too small for it and its header.
#[derive(Clone, Copy)]
pub enum WriteRefusal {
    TooLong,
    NoRoom,
}

impl WriteRefusal {
    // Its number, by which C knows it.
    pub fn number(self) -> u8
        ensures { result ≡ write_number self }
    {
        match self {
            WriteRefusal::TooLong => 1,
            WriteRefusal::NoRoom => 2,
        }
    }
}

// The header of a message of that length, over the room's first four bytes, by quotients, as the definition says it.
fn write_header(size: usize, room: &mut [u8])
    requires size_bound { size < 65536 }
    requires in_bounds { 4 ≤ length room.old }
    ensures { room.new ≡ put room.old 0 (header_of size) }
{
    let high = (size / 256) as u8;
    let low = (size % 256) as u8;
    let header = [0u8, 0, high, low];
    lay(&header, room);
}

// Writes a message behind its header at the start of the room: how many bytes that are.
pub fn write_message(message: &[u8], room: &mut [u8]) -> Result<usize, WriteRefusal>
    ensures value { written_told result ≡ (write message.now room.old).answer }
    ensures room_after { room.new ≡ (write message.now room.old).room }
{
    let size = message.len();
    if LONGEST_WRITTEN < size {
        return Err(WriteRefusal::TooLong);
    }
    let end = size + 4;
    if room.len() < end {
        return Err(WriteRefusal::NoRoom);
    }
    write_header(size, room);
    lay(message, &mut room[4..end]);
    Ok(end)
}
