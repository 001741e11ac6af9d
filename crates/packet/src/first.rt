// The lowest place at which a header stands.
ghost use Rattle.std.specs.Prelude.{◌≡◌, ◌<◌, IfSome, slice_index};
ghost use Rattle.packet.specs.Finds.{FirstHeader, HoldsByte, NextByte};

use crate::header::header_at;
use code::TextCode;
use medium::Medium;
use text::Text;

// The place of the lowest header, and the place behind it. (A pair: `comes_first` compares the one, and `found_behind` reads both.) No
// character is decoded at a place whose byte cannot begin a header.
pub fn first_header<C: TextCode, M: Medium>(text: &Text<C, M>) -> Option<(usize, usize)>
    ensures first { FirstHeader C.TextCode.enc text.now C.TextCode.unit result }
    ensures inside { IfSome result (λ x. x.0 < 1048576) }
{
    let lead = lead_byte::<C>();
    let medium = text.medium();
    let mut from = 0;
    while let Some(at) = next_byte(medium, from, lead) {
        if let Some(end) = header_at(text, at) {
            return Some((at, end));
        }
        from = at + 1;
    }
    None
}

// The first byte of `<`, and so of every header.
fn lead_byte<C: TextCode>() -> u8
    ensures { result ≡ slice_index (C.TextCode.enc 60) 0 }
{
    let code = C::encode(0x3c).unwrap();
    code[0]
}

// The first place from `from` on whose cell holds `b`. This loop goes over all cells and is a function of its own: with a call of
// `header_at` in it, each turn would load the medium's parts anew, and take half as long again in UTF-16 (docs/benchmarks.md).
fn next_byte<M: Medium>(m: &M, from: usize, b: u8) -> Option<usize>
    ensures { NextByte (M.Medium.cells m.now) from b result }
{
    for at in from..m.size() {
        if holds_byte(m, at, b) {
            return Some(at);
        }
    }
    None
}

fn holds_byte<M: Medium>(m: &M, at: usize, b: u8) -> bool
    ensures { HoldsByte (M.Medium.cells m.now) at b result }
{
    m.fetch(at).is_ok_and(|found| found == b)
}
