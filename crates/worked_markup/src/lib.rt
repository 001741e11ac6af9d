// Worked texts: small pieces of markup, and what reading them answers.
//
// They are facts about the definitions, and stand together on the contract of one function.
#![tactic(auto)]

ghost use Rattle.worked_markup.specs.Worked.{Worked};

// Nothing happens here. That this function is proved says that each text is read, or refused, as stated.
pub fn worked_texts()
    ensures { Worked }
{}
