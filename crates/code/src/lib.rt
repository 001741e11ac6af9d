// Text codes: how characters are written in bytes.
//
// A scalar value is a number from 0 to hexadecimal D7FF or from E000 to 10FFFF. A text code gives one to four bytes to each of
// them, such that no character's bytes begin those of another. Whatever is read or written above is proved once, for every code
// that keeps these laws.
#![tactic(auto)]

ghost use Rattle.std.specs.Prelude.{◌≡◌, ℕ, List};
ghost use Rattle.code.specs.Codes.{Decoded, Encoded, Laws};

use arrayvec::ArrayVec;

mod bytes;
mod failure;
mod scalar;
mod utf16;
mod utf8;

pub use failure::CodeFault;
pub use utf8::Utf8;
pub use utf16::{BigEndian, ByteOrder, LittleEndian, Utf16, Utf16Be, Utf16Le};

// The most bytes of a character.
pub const MOST_BYTES: usize = 4;

pub trait TextCode {
    // The bytes of a scalar value. What it gives to another number means nothing.
    ghost enc: { ℕ → List ℕ };

    // The number of bytes of U+0020 and of U+000A. Every length is a multiple of it.
    ghost unit: { ℕ };

    ghost laws: { Laws enc unit };

    fn unit() -> usize
        ensures { result ≡ unit };

    // The bytes of a scalar value.
    fn encode(v: u32) -> Result<ArrayVec<u8, MOST_BYTES>, CodeFault>
        ensures { Encoded enc v result };

    // The character whose bytes come first, and how many they are. Past the fourth byte nothing is looked at.
    fn decode(bytes: &[u8]) -> Result<(char, usize), CodeFault>
        ensures { Decoded enc bytes.now result };
}
