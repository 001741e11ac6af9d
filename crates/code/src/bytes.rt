// The bytes of a character, of which there are at most four.
ghost use Rattle.std.specs.Prelude.{◌≡◌, ◌≤◌};

use crate::MOST_BYTES;
use arrayvec::ArrayVec;

pub(crate) fn bytes_of<const N: usize>(bytes: [u8; N]) -> ArrayVec<u8, MOST_BYTES>
    requires { N ≤ 4 }
    ensures { result.items ≡ bytes.entry }
{
    ArrayVec::try_from(bytes.as_slice()).unwrap()
}
