// Finding a packet.
ghost use Rattle.std.specs.Prelude.{◌≡◌, ◌<◌, IfSome, MatchResult};
ghost use Rattle.packet.specs.Finds.{FirstHeader, NoPacket, OneAnswer, PacketAt};

use crate::PacketFault;
use crate::body::first_trailer;
use crate::extent::Extent;
use crate::first::first_header;
use crate::trailer::Ending;
use code::TextCode;
use medium::Medium;
use std::marker::PhantomData;
use text::Text;

// A packet that was found in the code `C`, and that nothing has been done with yet. It can be neither read nor written as it is.
#[derive(Drop)]
pub struct Found<C> {
    extent: Extent,
    writable: bool,
    code: PhantomData<C>,
}

impl<C: TextCode> Found<C> {
    // Where the packet lies.
    pub fn extent(&self) -> Extent
        ensures { result ≡ self.now.extent }
    {
        self.extent
    }

    // Whether its trailer lets it be written.
    pub fn writable(&self) -> bool
        ensures { result ≡ self.now.writable }
    {
        self.writable
    }
}

// The packet with the lowest header.
pub fn find<C: TextCode, M: Medium>(text: &Text<C, M>) -> Result<Found<C>, PacketFault>
    ensures { MatchResult result (λ f. PacketAt C.TextCode.enc text.now C.TextCode.unit f.extent.place f.extent.len f.writable) (NoPacket C.TextCode.enc text.now C.TextCode.unit) }
{
    found_behind(text, first_header(text))
}

// The packet with the lowest header, which has been looked for: its place, and the place behind it.
pub(crate) fn found_behind<C: TextCode, M: Medium>(
    text: &Text<C, M>,
    header: Option<(usize, usize)>,
) -> Result<Found<C>, PacketFault>
    requires first { FirstHeader C.TextCode.enc text.now C.TextCode.unit header }
    requires inside { IfSome header (λ x. x.0 < 1048576) }
    ensures { MatchResult result (λ f. PacketAt C.TextCode.enc text.now C.TextCode.unit f.extent.place f.extent.len f.writable) (NoPacket C.TextCode.enc text.now C.TextCode.unit) }
{
    // That none stands anywhere is told of place 0, by docs/refusals.md.
    let (place, start) = header.ok_or(PacketFault::NoHeader { place: 0 })?;
    let Ending { writable, end } = first_trailer(text, place, start)?;
    let extent = Extent {
        place,
        len: end - place,
    };
    Ok(Found {
        extent,
        writable,
        code: PhantomData,
    })
}

// Nothing happens here. That this function is proved says that `find` has one answer only: no two places, lengths, letters or
// faults could both be called right of one medium in one code.
pub fn find_has_one_answer()
    ensures { OneAnswer }
{}
