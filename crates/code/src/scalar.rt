// The numbers that are characters.
ghost use Rattle.code.specs.Codes.{Tested};

use crate::CodeFault;
use crate::failure::NO_CHARACTER;

// The character of a number, if that is a scalar value.
pub(crate) fn character(v: u32) -> Result<char, CodeFault>
    ensures { Tested v result }
{
    char::from_u32(v).ok_or(NO_CHARACTER)
}
