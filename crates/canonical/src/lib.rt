// The canonical text of a tree: the one text by which a tree is written, and how a packet is filled with it.
//
// The meaning stands in specs/. What is proved of it here holds for every lawful tree and every text code.
#![tactic(auto)]

mod failure;
mod promises;

pub use failure::TooLong;
pub use promises::{
    canonical_text_fills_the_packet, canonical_text_is_framed, canonical_text_is_readable,
    prefixes_are_distinct,
};
