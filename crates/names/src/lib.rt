// Texts and names: a name is a namespace URI and a local part, and names stand in one order.
//
// The meaning stands in specs/. Nothing happens in these functions: that one is proved says that its statement holds.
#![tactic(auto)]

ghost use Rattle.names.specs.Ordered.{Ordered, Told};

// Names stand in one order.
pub fn names_are_ordered()
    ensures { Ordered }
{}

// The tests of texts and names answer what they test for.
pub fn names_are_told_apart()
    ensures { Told }
{}
