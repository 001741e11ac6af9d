// One character at a place.
ghost use Rattle.std.specs.Prelude.{◌+◌, ◌≤◌, IfOk, length};
ghost use Rattle.text.specs.Gathers.{Ended};
ghost use Rattle.text.specs.Stands.{CharAt, Holds};

use crate::Text;
use arrayvec::ArrayVec;
use code::{CodeFault, MOST_BYTES, TextCode};
use medium::{Medium, MediumFault};

impl<'m, C: TextCode, M: Medium> Text<'m, C, M> {
    // The character at a place, and how many cells hold it.
    pub fn char_at(&self, at: usize) -> Result<(char, usize), CodeFault>
        ensures char { CharAt C.TextCode.enc self.now at result }
        ensures inside { IfOk result (λ c. at + c.1 ≤ 1048576) }
    {
        let Gathered { bytes, refusal } = gather(self.medium, at);
        C::decode(bytes.as_slice()).map_err(|_| refusal)
    }
}

// The bytes that stand from a place on: up to the fourth, a lost cell or the end of the medium.
#[derive(Drop)]
struct Gathered {
    bytes: ArrayVec<u8, MOST_BYTES>,
    // The fault if these bytes begin with no character.
    refusal: CodeFault,
}

fn gather<M: Medium>(m: &M, at: usize) -> Gathered
    ensures held { Holds (M.Medium.cells m.now) at result.bytes.items }
    ensures ended { Ended (M.Medium.cells m.now) at (length result.bytes.items) result.refusal }
{
    let mut bytes = ArrayVec::new();
    let ended = CodeFault::NoCharacter { place: at };
    if at >= m.size() {
        return Gathered {
            bytes,
            refusal: ended,
        };
    }
    // The medium says where it ends: with its size in the range, a character takes half as many instructions again, or more.
    for i in 0..MOST_BYTES {
        match m.fetch(at + i) {
            Ok(b) => bytes.push(b),
            Err(MediumFault::OutOfRange { place: _ }) => {
                return Gathered {
                    bytes,
                    refusal: ended,
                };
            }
            Err(e) => {
                return Gathered {
                    bytes,
                    refusal: CodeFault::Unread(e),
                };
            }
        }
    }
    Gathered {
        bytes,
        refusal: ended,
    }
}
