// Marked-up text: elements, attributes and texts, and how they are spelt.
//
// The meaning stands in specs/. What is proved of it here holds for all markup.
#![tactic(auto)]

ghost use Rattle.markup.specs.Clean.{Spelt};

// Nothing happens here. That this function is proved says that markup with plain names is spelt without `<?`, and markup with XML's
// characters in XML's characters.
pub fn markup_is_spelt_plainly()
    ensures { Spelt }
{}
