// Decoding: the text that stands in a range of cells, in a text code.
//
// The meaning stands in specs/. What is proved of it here holds for every medium and every lawful code.
#![tactic(auto)]

ghost use Rattle.decoding.specs.Passage.{DecodesRight};

// Nothing happens here. That this function is proved says that decoding a range of cells has one answer, and that what was encoded
// is decoded again.
pub fn decoding_is_right()
    ensures { DecodesRight }
{}
