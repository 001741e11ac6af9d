// Why a tree does not go into a packet.
ghost use Rattle.canonical.specs.Faults.{told_too_long};

use fault::{Fault, Layer, Report};

// The canonical text is longer than the packet at the place.
#[derive(Clone, Copy, PartialEq, Eq, Debug)]
pub struct TooLong {
    pub place: usize,
}

impl Fault for TooLong {
    ghost told = { told_too_long };

    fn report(&self) -> Report {
        Report {
            layer: Layer::Packet,
            number: 13,
            place: self.place,
        }
    }
}
