// The chain as a whole. The reader calls itself at AndXOffset, on fewer bytes, with a slice and numbers
// only. It keeps nothing of a block, so that the longest chain takes little stack.

ghost use Rattle.std.specs.Prelude.{◌≡◌};
ghost use Rattle.chain.specs.Chain.{blocks_from};
ghost use Rattle.chain.specs.Judged.{readable};

use crate::message_reader::judge_at;

// Whether a chain that begins with that command at a place has a reading. A malformed block "ends the
// chain's reading at once".
pub fn is_sentence(s: &[u8], command: u8, at: usize) -> bool
    ensures { result ≡ readable (blocks_from s.now command at) }
{
    let Some(next) = judge_at(s, command, at) else {
        return false;
    };
    let Some(follower) = next else {
        return true;
    };
    is_sentence(s, follower.command, follower.at)
}
