// Why there is no packet.
ghost use Rattle.std.specs.Prelude.{◌≡◌};
ghost use Rattle.packet.specs.declared.failure.PacketFault.TheVariants.{Unreadable};
ghost use Rattle.packet.specs.Faults.{told_packet};

use code::CodeFault;
use fault::{Fault, Layer, Report};

#[derive(Clone, Copy, PartialEq, Eq, Debug)]
pub enum PacketFault {
    // A cell or a character could not be read.
    Unreadable(CodeFault),
    // No header stands in the medium, or none at the place.
    NoHeader { place: usize },
    // No trailer in reach of the header at the place.
    NoTrailer { place: usize },
}

impl From<CodeFault> for PacketFault {
    ghost from_gives = { λ e r. r ≡ Unreadable e };

    fn from(e: CodeFault) -> PacketFault {
        PacketFault::Unreadable(e)
    }
}

impl Fault for PacketFault {
    ghost told = { told_packet };

    fn report(&self) -> Report {
        let (number, place) = match self {
            PacketFault::Unreadable(below) => return below.report(),
            PacketFault::NoHeader { place } => (3, *place),
            PacketFault::NoTrailer { place } => (4, *place),
        };
        Report {
            layer: Layer::Packet,
            number,
            place,
        }
    }
}
