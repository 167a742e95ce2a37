// The stream's reader and writer for a C program: the functions of `gateway::byte_stream`.

ghost use Rattle.std.specs.Prelude.{◌≡◌};
ghost use Rattle.stream.specs.State.{none_begun};
ghost use Rattle.stream.specs.Writer.{write};
ghost use Rattle.boundary.specs.StreamWords.{state_in, words_of, piece_read, step_after, written_after};

// A reader that has read nothing, whatever the words were.
#[unsafe(no_mangle)]
pub extern "C" fn gateway_stream_reset(state: &mut [u64; 7])
    ensures { state.new ≡ words_of none_begun }
{
    gateway::byte_stream::gateway_stream_reset(state);
}

// A piece of the stream, up to the end of the first message that becomes whole. The step is written on 0 only. Any words are those of
// the state that they hold, so that a state left as it was is words left as they were.
#[unsafe(no_mangle)]
pub extern "C" fn gateway_stream_read(
    state: &mut [u64; 7],
    buffer: &mut [u8; 8192],
    piece: &[u8],
    step: &mut [u64; 4],
) -> u8
    ensures state_value { state.old ≡ words_of (state_in state.old) }
    ensures value { result ≡ (piece_read state.old buffer.old piece.now).step.number }
    ensures state_after { state.new ≡ words_of (piece_read state.old buffer.old piece.now).step.state }
    ensures buffer_after { buffer.new ≡ (piece_read state.old buffer.old piece.now).buffer }
    ensures step_after { step.new ≡ step_after step.old (piece_read state.old buffer.old piece.now).step }
{
    gateway::byte_stream::gateway_stream_read(state, buffer, piece, step)
}

// A message behind its session header at the start of the room; the length of both goes to written.
#[unsafe(no_mangle)]
pub extern "C" fn gateway_stream_write(message: &[u8], room: &mut [u8], written: &mut usize) -> u8
    ensures value { result ≡ (write message.now room.old).answer.number }
    ensures room_after { room.new ≡ (write message.now room.old).room }
    ensures written_after { written.new ≡ written_after written.old (write message.now room.old).answer }
{
    gateway::byte_stream::gateway_stream_write(message, room, written)
}
