// XMP packets in a medium: the header and the trailer that a packet stands between.
//
// What they are is said of texts, in specs/Texts.antt, with no word of how they are looked for. What is found here stands in the
// cells of any medium, in any text code.
#![tactic(auto)]

mod any;
mod body;
mod examining;
mod extent;
mod failure;
mod finding;
mod first;
mod header;
mod trailer;

pub use any::{AnyFound, find_any};
pub use examining::examine;
pub use extent::Extent;
pub use failure::PacketFault;
pub use finding::{Found, find, find_has_one_answer};
pub use first::first_header;
pub use header::header_at;
pub use trailer::{Ending, trailer_at};
