// The settled examples: worked cases that were fixed before the engine was built, one from each of its layers.
//
// They are facts about the definitions that the contracts cite, and stand together on the contract of one function.
#![tactic(auto)]

ghost use Rattle.settled.specs.Examples.{Settled};

// Nothing happens here. That this function is proved says that the examples hold.
pub fn settled_examples()
    ensures { Settled }
{}
