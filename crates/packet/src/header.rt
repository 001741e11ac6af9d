// The header of a packet.
ghost use Rattle.packet.specs.Parts.{Closing, Ends, MarkAt, Marked, Named, Naming, QuoteAt};
ghost use Rattle.packet.specs.Texts.{Header, Quote};

use code::TextCode;
use medium::Medium;
use text::Text;

// The id by which a packet is known.
const PACKET_ID: &[u8; 24] = b"W5M0MpCehiHzreSzNTczkc9d";

// The place behind the header that stands at `at`, if one does. It is not inlined, so that the loop over all places stays small.
#[inline(never)]
pub fn header_at<C: TextCode, M: Medium>(text: &Text<C, M>, at: usize) -> Option<usize>
    ensures { Ends C.TextCode.enc text.now (Header C.TextCode.unit) at result }
{
    let begin = text.word_at(at, b"<?xpacket begin=")?;
    let (quote, inside) = quote_at(text, begin)?;
    marked_at(text, inside, quote)
}

// The quote at a place, and the place behind it. It stays a character: what it is for is to be looked for once more.
pub(crate) fn quote_at<C: TextCode, M: Medium>(
    text: &Text<C, M>,
    at: usize,
) -> Option<(char, usize)>
    ensures { QuoteAt C.TextCode.enc text.now at result }
{
    text.step(at).filter(|(c, _)| *c == '"' || *c == '\'')
}

// The header from its mark on.
fn marked_at<C: TextCode, M: Medium>(text: &Text<C, M>, at: usize, quote: char) -> Option<usize>
    requires { Quote quote }
    ensures { Ends C.TextCode.enc text.now (Marked C.TextCode.unit quote) at result }
{
    let marked = mark_at(text, at)?;
    let closed = text.expect(marked, quote)?;
    id_at(text, closed)
}

// The place behind the mark at `at`: U+FEFF, or nothing in a code whose unit is one byte.
fn mark_at<C: TextCode, M: Medium>(text: &Text<C, M>, at: usize) -> Option<usize>
    ensures { MarkAt C.TextCode.enc text.now C.TextCode.unit at result }
{
    let marked = text.expect(at, '\u{feff}');
    if C::unit() == 1 {
        marked.or(Some(at))
    } else {
        marked
    }
}

// The header from ` id=` on.
fn id_at<C: TextCode, M: Medium>(text: &Text<C, M>, at: usize) -> Option<usize>
    ensures { Ends C.TextCode.enc text.now Naming at result }
{
    let named = text.word_at(at, b" id=")?;
    let (quote, inside) = quote_at(text, named)?;
    let behind = text.word_at(inside, PACKET_ID)?;
    let closed = text.expect(behind, quote)?;
    close_at(text, closed, 129, false)
}

// The end of the header behind at most `left` characters and its `>`; `question` says that a `?` stands just before. (A recursion: as a
// loop it would be no plainer, since its invariant would have to hold the text read so far, of which these two are all that is known.)
fn close_at<C: TextCode, M: Medium>(
    text: &Text<C, M>,
    at: usize,
    left: usize,
    question: bool,
) -> Option<usize>
    ensures { Ends C.TextCode.enc text.now (Closing left question) at result }
{
    let (c, behind) = text.step(at)?;
    if question && c == '>' {
        return Some(behind);
    }
    if left == 0 || c == '<' {
        return None;
    }
    close_at(text, behind, left - 1, c == '?')
}
