// What is proved of the calls with a path. Nothing happens in this function: that it is proved says that its statement holds.
ghost use Rattle.tree.specs.Edits.{Edits};

// A set, make or remove that is accepted on a lawful tree gives a lawful tree, in which the node at the path is what the call
// made of it and every other node stands as it stood.
pub fn edits_keep_trees_lawful()
    ensures { Edits }
{}
