// Why a place of a medium has no byte.
ghost use Rattle.std.specs.Prelude.{◌≡◌, ◌<◌, ◌≤◌, MatchResult};
ghost use Rattle.medium.specs.Faults.{told_medium};
ghost use Rattle.medium.specs.declared.failure.MediumFault.TheVariants.{OutOfRange};

use fault::{Fault, Layer, Report};

#[derive(Clone, Copy, PartialEq, Eq, Debug)]
pub enum MediumFault {
    // The place is not below the size.
    OutOfRange { place: usize },
    // The cell at the place is lost.
    Lost { place: usize },
}

impl Fault for MediumFault {
    ghost told = { told_medium };

    fn report(&self) -> Report {
        let (number, place) = match *self {
            MediumFault::OutOfRange { place } => (1, place),
            MediumFault::Lost { place } => (2, place),
        };
        Report {
            layer: Layer::Medium,
            number,
            place,
        }
    }
}

// Refuses a place that is not below the size.
pub fn in_range(place: usize, size: usize) -> Result<(), MediumFault>
    ensures { MatchResult result (λ _. place < size) (λ e. (e ≡ OutOfRange place) × (size ≤ place)) }
{
    if place < size {
        Ok(())
    } else {
        Err(MediumFault::OutOfRange { place })
    }
}
