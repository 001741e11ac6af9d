// What a caller gets from the media: bytes are lent, used as a medium, and had back.
//
// Each function here makes a medium over its caller's bytes, puts one byte through it and lets it go. That their contracts
// speak of the caller's bytes alone shows that those of the media say enough.
#![tactic(auto)]

ghost use Rattle.std.specs.Prelude.{◌≡◌, ◌+◌};
ghost use Rattle.media_checks.specs.After.{PutFetched};
ghost use Rattle.medium.specs.Access.{Put, Replaced};
ghost use Rattle.medium.specs.Cells.{flat_cells, window};
ghost use Rattle.volume.specs.Blocks.{volume_cells};

use medium::{Flat, Medium, MediumFault, Window};
use volume::Volume;

#[cfg(test)]
mod tests;

// Through a flat medium.
pub fn put_flat(bytes: &mut [u8], at: usize, b: u8) -> Result<(), MediumFault>
    ensures put { Put (flat_cells bytes.old) at b (flat_cells bytes.new) result }
    ensures bytes { Replaced bytes.old at b bytes.new result }
{
    Flat::new(bytes).put(at, b)
}

// Through a reel volume. (Tried as one generic function with `put_flat`, and the proof didn't close: a type parameter for the medium
// names the loan's lifetime, and then there is no value of the bytes after the call.)
pub fn put_reel(bytes: &mut [u8], at: usize, b: u8) -> Result<(), MediumFault>
    ensures put { Put (volume_cells bytes.old) at b (volume_cells bytes.new) result }
{
    Volume::new(bytes).put(at, b)
}

// Through a window over a medium that is lent to it, and then from that medium itself.
pub fn put_then_fetch<M: Medium>(
    m: &mut M,
    from: usize,
    len: usize,
    at: usize,
    b: u8,
) -> Result<u8, MediumFault>
    ensures put { PutFetched (M.Medium.cells m.old) (window from len (M.Medium.cells m.old)) from at b (M.Medium.cells m.new) result }
    ensures kept { M.Medium.kept m.old m.new }
{
    let mut part = Window::new(&mut *m, from, len);
    part.put(at, b)?;
    m.fetch(from + at)
}
