// The flat medium: the caller's bytes as they lie, none of them lost.
ghost use Rattle.std.specs.Prelude.{◌≡◌};
ghost use Rattle.medium.specs.Cells.{flat_cells};
ghost use Rattle.medium.specs.Frames.{FlatKept};
ghost use Rattle.medium.specs.Laws.{flat_bounded, flat_frame};

use crate::{MOST_CELLS, Medium, MediumFault, in_range};

// The first 1,048,576 of the bytes that it was lent.
#[derive(Drop)]
pub struct Flat<'a> {
    bytes: &'a mut [u8],
}

impl<'a> Flat<'a> {
    pub fn new(bytes: &'a mut [u8]) -> Flat<'a>
        ensures holds { result.bytes.now ≡ bytes.old }
        ensures lends { result.bytes.ghost_name ≡ bytes.entry.ghost_name }
    {
        Flat { bytes }
    }
}

impl<'a> Medium for Flat<'a> {
    ghost cells = { λ f. flat_cells f.bytes.now };

    ghost bounded = { λ f. flat_bounded f.bytes.now };

    ghost kept = { FlatKept };

    ghost frame = { flat_frame };

    fn size(&self) -> usize {
        self.bytes.len().min(MOST_CELLS)
    }

    fn fetch(&self, at: usize) -> Result<u8, MediumFault> {
        in_range(at, self.size())?;
        Ok(self.bytes[at])
    }

    fn put(&mut self, at: usize, b: u8) -> Result<(), MediumFault> {
        in_range(at, (*self).size())?;
        self.bytes[at] = b;
        Ok(())
    }
}
