// A medium that is lent is a medium, so that whoever takes a medium takes one by `&mut` too.
ghost use Rattle.medium.specs.Frames.{LentKept};
ghost use Rattle.medium.specs.Laws.{lent_frame};

use crate::{Medium, MediumFault};

impl<'a, M: Medium> Medium for &'a mut M {
    ghost cells = { λ r. M.Medium.cells r.now };

    ghost bounded = { λ r. M.Medium.bounded r.now };

    ghost kept = { LentKept M.Medium.kept };

    ghost frame = { lent_frame M.Medium.frame };

    fn size(&self) -> usize {
        (**self).size()
    }

    fn fetch(&self, at: usize) -> Result<u8, MediumFault> {
        (**self).fetch(at)
    }

    fn put(&mut self, at: usize, b: u8) -> Result<(), MediumFault> {
        (**self).put(at, b)
    }
}
