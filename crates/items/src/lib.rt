// The items of marked-up text: tags, comments, instructions and runs of text.
//
// The meaning stands in specs/: a grammar of one item in the words of XML, and a scanner that finds the item at the front of a text.
#![tactic(auto)]

ghost use Rattle.items.specs.Exact.{Exact};

// Nothing happens here. That this function is proved says that the scanner finds exactly the items of the grammar.
pub fn scanner_is_exact()
    ensures { Exact }
{}
