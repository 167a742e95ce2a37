// The chain lister's text, written into a lent buffer: `list_message` (document 01, "A listing, whole").
#![tactic(auto)]

ghost use Rattle.std.specs.Prelude.{◌≡◌, ◌≤◌};
ghost use Rattle.chain.specs.Chain.{blocks_from};
ghost use Rattle.listing.specs.Text.{line, listing};
ghost use Rattle.listing.specs.Lines.{SentenceFrom, lines_of};
ghost use Rattle.text.specs.Over.{Written};

use chain::block::Block;
use chain::header::{COMMAND, FIRST, is_dropped};
use chain::parse::fields_at;
use chain::reader::is_sentence;
use text::{put_byte, put_decimal, put_hex, put_text};

const SPACE: u8 = b' ';

// The line of a block that stands k-th.
fn put_line(out: &mut [u8], at: usize, k: usize, b: Block) -> usize
    ensures { Written out.old at (line k b) out.new result }
{
    let a1 = put_decimal(out, at, k);
    let a2 = put_byte(out, a1, SPACE);
    let a3 = put_hex(out, a2, b.command);
    let a4 = put_byte(out, a3, SPACE);
    let a5 = put_decimal(out, a4, b.at);
    let a6 = put_byte(out, a5, SPACE);
    let a7 = put_decimal(out, a6, b.length);
    put_byte(out, a7, 10)
}

// The lines of a chain's blocks from the k-th on, which begins with that command at that place, then
// `end`. The chain was judged, so each block is only taken apart. A block takes three bytes at least, so k
// stays below the place.
fn put_blocks(s: &[u8], out: &mut [u8], at: usize, k: usize, command: u8, place: usize) -> usize
    requires k_le_place { k ≤ place }
    requires sentence_from { SentenceFrom s.now command place }
    ensures { Written out.old at (lines_of k (blocks_from s.now command place)) out.new result }
{
    let b = fields_at(s, command, place);
    let to = put_line(out, at, k, b);
    let next = b.next;
    let Some(follower) = next else {
        return put_text(out, to, b"end\n");
    };
    put_blocks(s, out, to, k + 1, follower.command, follower.at)
}

// What the lister prints for a message, as far as the buffer has room; how many bytes that is.
pub fn list_message(s: &[u8], out: &mut [u8]) -> usize
    ensures { Written out.old 0 (listing s.now) out.new result }
{
    if is_dropped(s) {
        return put_text(out, 0, b"dropped\n");
    }
    let command = wire::byte_at(s, COMMAND);
    if !is_sentence(s, command, FIRST) {
        return put_text(out, 0, b"not a chain\n");
    }
    put_blocks(s, out, 0, 1, command, FIRST)
}
