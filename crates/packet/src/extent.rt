// Where a packet lies. The record carries its bounds, so that no later call tests them.
ghost use Rattle.std.specs.Prelude.{◌≡◌, ◌+◌, ◌≤◌};

#[derive(Clone, Copy)]
pub struct Extent {
    pub(crate) place: usize,
    pub(crate) len: usize,
    ghost short: { len ≤ 16384 },
    ghost inside: { place + len ≤ 1048576 },
}

impl Extent {
    // The place of the header's first cell.
    pub fn place(&self) -> usize
        ensures { result ≡ self.now.place }
    {
        self.place
    }

    // The number of cells, from the header's first to the trailer's last.
    pub fn len(&self) -> usize
        ensures value { result ≡ self.now.len }
        ensures short { result ≤ 16384 }
        ensures inside { self.now.place + result ≤ 1048576 }
    {
        self.len
    }
}
