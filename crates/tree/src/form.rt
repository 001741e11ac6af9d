// The forms of a node.

#[derive(Clone, Copy, PartialEq, Eq, Debug)]
pub enum Form {
    // A text.
    Text,
    // A URI.
    Uri,
    // A structure, with named fields.
    Structure,
    // An array whose order says nothing, though it is kept.
    Bag,
    // An array in order.
    Sequence,
    // An array of alternatives, the first by preference.
    Alternative,
}
