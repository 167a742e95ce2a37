// Filling bytes.

ghost use Rattle.std.specs.Prelude.{◌≡◌, ◌≤◌, length, replicate};
ghost use Rattle.lists.specs.Put.{put};

// Zeros over the whole slice.
pub fn clear(room: &mut [u8])
    ensures { room.new ≡ replicate (length room.old) 0 }
{
    room.fill(0);
}

// The bytes over the room's first ones; the rest of the room stands.
pub fn lay(part: &[u8], room: &mut [u8])
    requires { length part.now ≤ length room.old }
    ensures { room.new ≡ put room.old 0 part.now }
{
    room[..part.len()].copy_from_slice(part);
}
