// UTF-16, in either order of the bytes.
//
// A character below hexadecimal 10000 is one unit of sixteen bits. Another is two, a leading and a trailing surrogate with ten
// bits each of what the number has above that. No surrogate is a character, so a unit tells which of these it is.
ghost use Rattle.std.specs.Prelude.{◌≡◌, ℕ, List, [], ◌∷◌};
ghost use Rattle.code.specs.Utf16.{Order, Surrogates, big_pair, enc16, little_pair};
ghost use Rattle.code.specs.Utf16Laws.{big_order, little_order, utf16_laws};

use crate::bytes::bytes_of;
use crate::failure::NO_CHARACTER;
use crate::scalar::character;
use crate::{CodeFault, MOST_BYTES, TextCode};
use arrayvec::ArrayVec;
use std::marker::PhantomData;

// How the two bytes of a unit stand.
pub trait ByteOrder {
    ghost pair: { ℕ → List ℕ };

    // No two units have the same two bytes.
    ghost order: { Order pair };

    fn split(u: u16) -> [u8; 2]
        ensures { result ≡ pair u };

    fn join(a: u8, b: u8) -> u16
        ensures { pair result ≡ a ∷ b ∷ [] };
}

// The most significant byte first.
#[derive(Clone, Copy)]
pub struct BigEndian;

impl ByteOrder for BigEndian {
    ghost pair = { big_pair };

    ghost order = { big_order };

    fn split(u: u16) -> [u8; 2] {
        u.to_be_bytes()
    }

    fn join(a: u8, b: u8) -> u16 {
        u16::from_be_bytes([a, b])
    }
}

// The least significant byte first.
#[derive(Clone, Copy)]
pub struct LittleEndian;

impl ByteOrder for LittleEndian {
    ghost pair = { little_pair };

    ghost order = { little_order };

    fn split(u: u16) -> [u8; 2] {
        u.to_le_bytes()
    }

    fn join(a: u8, b: u8) -> u16 {
        u16::from_le_bytes([a, b])
    }
}

// UTF-16 in the order `O`.
#[derive(Clone, Copy)]
pub struct Utf16<O>(PhantomData<O>);

pub type Utf16Be = Utf16<BigEndian>;

pub type Utf16Le = Utf16<LittleEndian>;

impl<O: ByteOrder> TextCode for Utf16<O> {
    ghost enc = { enc16 O.ByteOrder.pair };

    ghost unit = { 2 };

    ghost laws = { utf16_laws O.ByteOrder.pair O.ByteOrder.order };

    fn unit() -> usize {
        2
    }

    #[tactic(auto, unfolding(crate::specs::Utf16::enc16), using(crate::proofs::Forms16::two_wrote))]
    fn encode(v: u32) -> Result<ArrayVec<u8, MOST_BYTES>, CodeFault> {
        character(v)?;
        if let Ok(unit) = u16::try_from(v) {
            return Ok(bytes_of(O::split(unit)));
        }
        let above = v - 0x1_0000;
        let [a, b] = O::split(0xd800 + (above / 0x400) as u16);
        let [c, d] = O::split(0xdc00 + (above % 0x400) as u16);
        Ok(bytes_of([a, b, c, d]))
    }

    fn decode(bytes: &[u8]) -> Result<(char, usize), CodeFault> {
        let [a, b, ..] = *bytes else {
            return Err(NO_CHARACTER);
        };
        let lead = u32::from(O::join(a, b));
        if let Ok(c) = character(lead) {
            return Ok((c, 2));
        }
        let [_, _, c, d, ..] = *bytes else {
            return Err(NO_CHARACTER);
        };
        let trail = u32::from(O::join(c, d));
        let v = of_pair(lead, trail).ok_or(NO_CHARACTER)?;
        Ok((character(v)?, 4))
    }
}

// The number whose leading and trailing surrogate these are.
fn of_pair(lead: u32, trail: u32) -> Option<u32>
    ensures { Surrogates lead trail result }
{
    match (lead, trail) {
        (0xd800..=0xdbff, 0xdc00..=0xdfff) => {
            Some(0x1_0000 + (lead - 0xd800) * 0x400 + (trail - 0xdc00))
        }
        _ => None,
    }
}
