// Finding a packet in whichever of the codes it is written.
ghost use Rattle.std.specs.Prelude.{◌↔◌, IsTrue, MatchResult};
ghost use Rattle.packet.specs.Any.{FoundAny, NoneInAny, NotAbove};

use crate::PacketFault;
use crate::finding::{Found, found_behind};
use crate::first::first_header;
use code::{Utf8, Utf16Be, Utf16Le};
use medium::Medium;
use text::Text;

// A packet that was found, by the code that it is written in. A variant for each code, and not one struct with a tag, since the
// code of a packet is its type: whatever is done with it is then proved once, for every code.
#[derive(Drop)]
pub enum AnyFound {
    InUtf8(Found<Utf8>),
    InUtf16Be(Found<Utf16Be>),
    InUtf16Le(Found<Utf16Le>),
}

// The packet whose header is the lowest among the codes. From there on only that code counts.
pub fn find_any<M: Medium>(m: &M) -> Result<AnyFound, PacketFault>
    ensures { MatchResult result (FoundAny (M.Medium.cells m.now)) (NoneInAny (M.Medium.cells m.now)) }
{
    let in_utf8 = Text::<Utf8, M>::new(m);
    let in_big = Text::<Utf16Be, M>::new(m);
    let in_little = Text::<Utf16Le, M>::new(m);
    let utf8 = first_header(&in_utf8);
    let big = first_header(&in_big);
    let little = first_header(&in_little);
    if comes_first(utf8, big) && comes_first(utf8, little) {
        found_behind(&in_utf8, utf8).map(AnyFound::InUtf8)
    } else if comes_first(big, little) {
        found_behind(&in_big, big).map(AnyFound::InUtf16Be)
    } else {
        found_behind(&in_little, little).map(AnyFound::InUtf16Le)
    }
}

// Whether the header at `a` is not above the one at `b`. One that is not there counts as above every other.
fn comes_first(a: Option<(usize, usize)>, b: Option<(usize, usize)>) -> bool
    ensures { IsTrue result ↔ NotAbove a b }
{
    match (a, b) {
        (Some((a, _)), Some((b, _))) => a <= b,
        (_, None) => true,
        (None, Some(_)) => false,
    }
}
