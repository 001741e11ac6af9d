// From a header to the first trailer behind it.
ghost use Rattle.std.specs.Prelude.{◌≤◌, IfOk};
ghost use Rattle.packet.specs.Finds.{CharacterBy, FirstTrailer, TrailerBy};

use crate::PacketFault;
use crate::trailer::{Ending, trailer_at};
use code::TextCode;
use medium::Medium;
use text::Text;

// The most cells of a packet, from its header on.
pub const MOST_PACKET_CELLS: usize = 16_384;

// The first trailer behind `start`, where the header that stands at `place` ends.
pub fn first_trailer<C: TextCode, M: Medium>(
    text: &Text<C, M>,
    place: usize,
    start: usize,
) -> Result<Ending, PacketFault>
    requires { place ≤ 1048576 }
    ensures first { FirstTrailer C.TextCode.enc text.now place start result }
    ensures inside { IfOk result (λ x. x.end ≤ 1048576) }
{
    let limit = place + MOST_PACKET_CELLS;
    let size = text.size();
    // A `while`, since each character says how far it goes: an iterator of places would be this loop again, in a type of its own.
    let mut at = start;
    while at < limit && at < size {
        if let Some(ending) = trailer_by(text, at, limit) {
            return Ok(ending);
        }
        at = character_by(text, place, limit, at)?;
    }
    Err(PacketFault::NoTrailer { place })
}

// The place behind the character at `at`, in the packet whose header stands at `place` and that ends by `limit`.
fn character_by<C: TextCode, M: Medium>(
    text: &Text<C, M>,
    place: usize,
    limit: usize,
    at: usize,
) -> Result<usize, PacketFault>
    ensures { CharacterBy C.TextCode.enc text.now place limit at result }
{
    let (_, count) = text.char_at(at)?;
    if at + count <= limit {
        Ok(at + count)
    } else {
        Err(PacketFault::NoTrailer { place })
    }
}

// The trailer at `at`, if it ends by `limit`.
fn trailer_by<C: TextCode, M: Medium>(text: &Text<C, M>, at: usize, limit: usize) -> Option<Ending>
    ensures { TrailerBy C.TextCode.enc text.now limit at result }
{
    trailer_at(text, at).filter(|ending| ending.end <= limit)
}
