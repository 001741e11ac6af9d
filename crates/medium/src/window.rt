// The window: some cells in a row of another medium, with places of their own.
ghost use Rattle.std.specs.Prelude.{◌≡◌, ◌+◌};
ghost use Rattle.medium.specs.Access.{Put, Replaced};
ghost use Rattle.medium.specs.Cells.{byte};
ghost use Rattle.medium.specs.Frames.{WindowKept, window_cells};
ghost use Rattle.medium.specs.Laws.{window_frame, window-bounded};

use crate::{Medium, MediumFault, in_range};

// The cells of `inner` from the place `from` on, as many as `len` and `inner` allow. One that begins past the end has none.
#[derive(Drop)]
pub struct Window<M> {
    inner: M,
    from: usize,
    len: usize,
}

impl<M: Medium> Window<M> {
    pub fn new(inner: M, from: usize, len: usize) -> Window<M>
        ensures inner { result.inner ≡ inner }
        ensures from { result.from ≡ from }
        ensures len { result.len ≡ len }
    {
        Window { inner, from, len }
    }

    // The medium underneath, as the window leaves it.
    pub fn into_inner(self) -> M
        ensures { result ≡ self.inner }
    {
        self.inner
    }
}

impl<M: Medium> Medium for Window<M> {
    ghost cells = { window_cells M.Medium.cells };

    ghost bounded = { λ w. window-bounded w.from w.len (M.Medium.cells w.inner) (M.Medium.bounded w.inner) };

    ghost kept = { WindowKept M.Medium.cells M.Medium.kept };

    ghost frame = { window_frame M.Medium.cells M.Medium.frame };

    #[tactic(auto, using(crate::proofs::Windows::size))]
    fn size(&self) -> usize {
        self.inner.size().saturating_sub(self.from).min(self.len)
    }

    fn fetch(&self, at: usize) -> Result<u8, MediumFault> {
        in_range(at, self.size())?;
        self.inner
            .fetch(self.from + at)
            .map_err(|_| MediumFault::Lost { place: at })
    }

    fn put(&mut self, at: usize, b: u8) -> Result<(), MediumFault>
        ensures put { Put (window_cells M.Medium.cells self.old) at b (window_cells M.Medium.cells self.new) result }
        ensures kept { WindowKept M.Medium.cells M.Medium.kept self.old self.new }
        ensures under { Replaced (M.Medium.cells self.old.inner) (self.old.from + at) (byte b) (M.Medium.cells self.new.inner) result }
    {
        in_range(at, (*self).size())?;
        self.inner
            .put(self.from + at, b)
            .map_err(|_| MediumFault::Lost { place: at })
    }
}
