// Says of the reel volume on standard input how many blocks are sound, which are lost, and what their checks should have been.
#![tactic(auto)]

use std::io;
use std::io::Read;
use survey::survey_text;

// (`locate` reads and prints alike; five lines are shorter than a crate that would hold them for both.)
fn main(rt: HostRuntime) -> io::Result<()> {
    let heap = rt.alloc();
    let mut bytes = Vec::new(heap);
    rt.stdin().read_to_end(&mut bytes)?;
    let text = survey_text(heap, bytes.as_slice())?;
    rt.print(text)
}
