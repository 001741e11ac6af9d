// UTF-8.
//
// A character below hexadecimal 80 is one byte. A longer one has a lead byte, which tells the count, and behind it one to three
// tail bytes of six bits each, most significant first. Where a shorter form has the room, a longer one is no character.
ghost use Rattle.std.specs.Prelude.{◌≡◌, ◌+◌, ◌%◌};
ghost use Rattle.code.specs.Codes.{Decoded};
ghost use Rattle.code.specs.Tails.{Longer, TailBits};
ghost use Rattle.code.specs.Utf8.{enc8};
ghost use Rattle.code.specs.Utf8Laws.{utf8_laws};

use crate::bytes::bytes_of;
use crate::failure::NO_CHARACTER;
use crate::scalar::character;
use crate::{CodeFault, MOST_BYTES, TextCode};
use arrayvec::ArrayVec;

#[derive(Clone, Copy)]
pub struct Utf8;

impl TextCode for Utf8 {
    ghost enc = { enc8 };

    ghost unit = { 1 };

    ghost laws = { utf8_laws };

    fn unit() -> usize {
        1
    }

    #[tactic(auto, unfolding(crate::specs::Utf8::enc8))]
    fn encode(v: u32) -> Result<ArrayVec<u8, MOST_BYTES>, CodeFault> {
        character(v)?;
        match v {
            0..=0x7f => Ok(bytes_of([v as u8])),
            0x80..=0x7ff => Ok(bytes_of([0xc0 + (v / 64) as u8, tail(v)])),
            0x800..=0xffff => Ok(bytes_of([0xe0 + (v / 64 / 64) as u8, tail(v / 64), tail(v)])),
            0x1_0000.. => Ok(bytes_of([
                0xf0 + (v / 64 / 64 / 64) as u8,
                tail(v / 64 / 64),
                tail(v / 64),
                tail(v),
            ])),
        }
    }

    #[tactic(auto, using(crate::proofs::Forms8::no_lead))]
    fn decode(bytes: &[u8]) -> Result<(char, usize), CodeFault> {
        let [lead, ..] = *bytes else {
            return Err(NO_CHARACTER);
        };
        match lead {
            0..=0x7f => Ok((char::from(lead), 1)),
            0x80..=0xbf => Err(NO_CHARACTER),
            0xc0..=0xdf => longer(bytes, u32::from(lead - 0xc0), 2, 0x80),
            0xe0..=0xef => longer(bytes, u32::from(lead - 0xe0), 3, 0x800),
            // Of a lead byte above hexadecimal F4 comes a number that is no scalar value.
            0xf0.. => longer(bytes, u32::from(lead - 0xf0), 4, 0x1_0000),
        }
    }
}

// The tail byte of the lowest six bits.
fn tail(v: u32) -> u8
    ensures { result ≡ 128 + v % 64 }
{
    0x80 + (v % 64) as u8
}

// The six bits of a tail byte.
fn tail_bits(b: u8) -> Result<u32, CodeFault>
    ensures { TailBits b result }
{
    match b {
        0x80..=0xbf => Ok(u32::from(b - 0x80)),
        _ => Err(NO_CHARACTER),
    }
}

// A character of `count` bytes, whose lead byte holds the bits `lead`. Below `least` a shorter form has the room.
fn longer(bytes: &[u8], lead: u32, count: usize, least: u32) -> Result<(char, usize), CodeFault>
    requires { Longer bytes.now lead count least }
    ensures { Decoded enc8 bytes.now result }
{
    let mut v = lead;
    for b in bytes.get(1..count).ok_or(NO_CHARACTER)? {
        v = v * 64 + tail_bits(*b)?;
    }
    if v < least {
        return Err(NO_CHARACTER);
    }
    Ok((character(v)?, count))
}
