// Documents of marked-up text: elements that nest, namespaces, and the faults of a text.
//
// The meaning stands in specs/: which text is which document, what is wrong with an item where it stands, and a reader.
#![tactic(auto)]

ghost use Rattle.xml.specs.Reading.{Right};

// Nothing happens here. That this function is proved says that the reader answers the document of a text exactly when the text has no
// fault, and refuses it with its least fault otherwise.
pub fn reading_markup_is_right()
    ensures { Right }
{}
