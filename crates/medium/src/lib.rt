// The lowest layer: a medium of cells.
//
// A medium is a list of at most 1,048,576 cells, with places from 0. A cell is a byte or is lost. Nothing else of a medium
// matters to the layers above, so all of them are written and proved once, for every medium that keeps the contract of `Medium`.
#![tactic(auto)]

ghost use Rattle.std.specs.Prelude.{◌≡◌, ◌≤◌, List, length};
ghost use Rattle.medium.specs.Access.{Fetched, Put};
ghost use Rattle.medium.specs.Cells.{Cell};
ghost use Rattle.medium.specs.Frames.{Frame};

mod failure;
mod flat;
mod lent;
mod window;

pub use failure::{MediumFault, in_range};
pub use flat::Flat;
pub use window::Window;

// The most cells that a medium has.
pub const MOST_CELLS: usize = 1_048_576;

pub trait Medium {
    // The medium as its user sees it.
    ghost cells: { Self → List Cell };

    // No medium has more cells than this.
    ghost bounded: { (m : Self) → length (cells m) ≤ 1048576 };

    // `kept m n`: all that the medium stands on and does not show is the same in n as in m. What that is, each medium says.
    ghost kept: { Self → Self → Type 0 };

    // What was kept by one call and then by another was kept by both.
    ghost frame: { Frame kept };

    // The number of cells.
    fn size(&self) -> usize
        ensures { result ≡ length (cells self.now) };

    // The byte at a place.
    fn fetch(&self, at: usize) -> Result<u8, MediumFault>
        ensures { Fetched (cells self.now) at result };

    // Replaces the byte of a cell that is not lost, and alters nothing else.
    fn put(&mut self, at: usize, b: u8) -> Result<(), MediumFault>
        ensures put { Put (cells self.old) at b (cells self.new) result }
        ensures kept { kept self.old self.new };
}
