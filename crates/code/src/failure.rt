// Why there is no character.
ghost use Rattle.std.specs.Prelude.{◌≡◌};
ghost use Rattle.code.specs.declared.failure.CodeFault.TheVariants.{Unread};
ghost use Rattle.code.specs.Faults.{told_code};

use fault::{Fault, Layer, Report};
use medium::MediumFault;

#[derive(Clone, Copy, PartialEq, Eq, Debug)]
pub enum CodeFault {
    // A byte could not be read.
    Unread(MediumFault),
    // No character begins at the place, or the number is no scalar value.
    NoCharacter { place: usize },
}

// What encode and decode refuse with: their own input is all that they know, and the place is its first, by docs/text-codes.md.
pub(crate) const NO_CHARACTER: CodeFault = CodeFault::NoCharacter { place: 0 };

impl From<MediumFault> for CodeFault {
    ghost from_gives = { λ e r. r ≡ Unread e };

    fn from(e: MediumFault) -> CodeFault {
        CodeFault::Unread(e)
    }
}

impl Fault for CodeFault {
    ghost told = { told_code };

    fn report(&self) -> Report {
        match self {
            CodeFault::Unread(below) => below.report(),
            CodeFault::NoCharacter { place } => Report {
                layer: Layer::Code,
                number: 5,
                place: *place,
            },
        }
    }
}
