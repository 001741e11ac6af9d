// Header and trailer of a packet looked at again, in whatever medium is given.
ghost use Rattle.packet.specs.Examines.{EndsAt, Examined, HeaderBy, TrailerEnding};

use crate::PacketFault;
use crate::extent::Extent;
use crate::header::header_at;
use crate::trailer::trailer_at;
use code::TextCode;
use medium::Medium;
use text::Text;

// The most cells of a trailer: nineteen characters of four.
const MOST_TRAILER_CELLS: usize = 76;

// Whether the packet may be written, if its header and its trailer stand where they should.
pub fn examine<C: TextCode, M: Medium>(
    text: &Text<C, M>,
    extent: Extent,
) -> Result<bool, PacketFault>
    ensures { Examined C.TextCode.enc text.now C.TextCode.unit extent.place extent.len result }
{
    let place = extent.place;
    let end = place + extent.len;
    let start = header_by(text, place, end).ok_or(PacketFault::NoHeader { place })?;
    trailer_ending(text, start, end).ok_or(PacketFault::NoTrailer { place })
}

// The place behind the header at `place`, if it ends by `end`.
fn header_by<C: TextCode, M: Medium>(text: &Text<C, M>, place: usize, end: usize) -> Option<usize>
    ensures { HeaderBy C.TextCode.enc text.now C.TextCode.unit end place result }
{
    header_at(text, place).filter(|behind| *behind <= end)
}

// Whether the trailer that ends at `end`, and begins at `start` or behind it, lets the packet be written.
fn trailer_ending<C: TextCode, M: Medium>(
    text: &Text<C, M>,
    start: usize,
    end: usize,
) -> Option<bool>
    ensures { TrailerEnding C.TextCode.enc text.now start end result }
{
    let low = end.saturating_sub(MOST_TRAILER_CELLS).max(start);
    (low..end).find_map(|at| ends_at(text, at, end))
}

// Whether the trailer at `at` lets the packet be written, if it ends at `end`.
fn ends_at<C: TextCode, M: Medium>(text: &Text<C, M>, at: usize, end: usize) -> Option<bool>
    ensures { EndsAt C.TextCode.enc text.now end at result }
{
    let ending = trailer_at(text, at)?;
    (ending.end == end).then_some(ending.writable)
}
