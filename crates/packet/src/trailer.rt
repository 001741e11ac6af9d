// The trailer of a packet.
ghost use Rattle.packet.specs.Finds.{LetterOf, TrailerAt};

use crate::header::quote_at;
use code::TextCode;
use medium::Medium;
use text::Text;

// What a trailer tells of its packet.
#[derive(Clone, Copy, PartialEq, Eq, Debug)]
pub struct Ending {
    // Whether the packet may be written.
    pub writable: bool,
    // The place behind it.
    pub end: usize,
}

// The trailer that stands at `at`, if one does.
pub fn trailer_at<C: TextCode, M: Medium>(text: &Text<C, M>, at: usize) -> Option<Ending>
    ensures { TrailerAt C.TextCode.enc text.now at result }
{
    let begin = text.word_at(at, b"<?xpacket end=")?;
    let (quote, inside) = quote_at(text, begin)?;
    let (letter, behind) = text.step(inside)?;
    let writable = may_write(letter)?;
    let closed = text.expect(behind, quote)?;
    let end = text.word_at(closed, b"?>")?;
    Some(Ending { writable, end })
}

// Whether a trailer with this letter lets its packet be written, if it is a trailer's.
fn may_write(letter: char) -> Option<bool>
    ensures { LetterOf letter result }
{
    match letter {
        'w' => Some(true),
        'r' => Some(false),
        _ => None,
    }
}
