// A medium as the text that stands in it.
ghost use Rattle.std.specs.Prelude.{◌≡◌, ◌≤◌, List, length};
ghost use Rattle.medium.specs.Cells.{Cell};

use code::TextCode;
use medium::Medium;
use std::marker::{Model, PhantomData};

// The cells of a medium, to be read in the code `C`. In contracts it is the list of the cells; the code is named there by its type.
#[derive(Drop)]
pub struct Text<'m, C: TextCode, M: Medium> {
    pub(crate) medium: &'m M,
    code: PhantomData<C>,
}

impl<'m, C: TextCode, M: Medium> Model for Text<'m, C, M> {
    ghost Value = { List Cell };

    ghost view = { λ t. M.Medium.cells t.medium.now };

    ghost invariant = { λ t. length (M.Medium.cells t.medium.now) ≤ 1048576 };
}

impl<'m, C: TextCode, M: Medium> Text<'m, C, M> {
    pub fn new(medium: &'m M) -> Text<'m, C, M>
        ensures { result ≡ M.Medium.cells medium.now }
    {
        Text {
            medium,
            code: PhantomData,
        }
    }

    // The number of cells.
    pub fn size(&self) -> usize
        ensures value { result ≡ length self.now }
        ensures bounded { result ≤ 1048576 }
    {
        self.medium.size()
    }

    // The medium that is read.
    pub fn medium(&self) -> &'m M
        ensures { M.Medium.cells result.now ≡ self.now }
    {
        self.medium
    }
}
