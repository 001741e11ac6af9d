// What is proved of the rules that every tree keeps. Nothing happens in these functions: that one is proved says that its
// statement holds.
ghost use Rattle.tree.specs.Rules.{Decided, Gathered};

// Each rule that a program has to test has a test, which answers whether the rule is kept.
pub fn rules_are_decided()
    ensures { Decided }
{}

// The namespaces of a tree, in order, are those that its names use.
pub fn namespaces_are_gathered()
    ensures { Gathered }
{}
