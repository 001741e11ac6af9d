// Says where the XMP packet of the file on standard input stands.
#![tactic(auto)]

use location::locate_text;
use std::io;
use std::io::Read;

// (`reel` reads and prints alike; five lines are shorter than a crate that would hold them for both.)
fn main(rt: HostRuntime) -> io::Result<()> {
    let heap = rt.alloc();
    let mut bytes = Vec::new(heap);
    rt.stdin().read_to_end(&mut bytes)?;
    let text = locate_text(heap, bytes.as_mut_slice())?;
    rt.print(text)
}
