// Text in a medium: characters as their bytes stand in the cells.
//
// A character stands at a place if the cells from there on hold its bytes in the text code, and a text if its characters stand
// one behind the other. A `Text` is a medium that is read in a text code. What is read of it is a character at a place, and whether
// a given word stands there, for every medium and every code.
#![tactic(auto)]

mod character;
mod reading;
mod words;

pub use reading::Text;
