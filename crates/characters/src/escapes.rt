// How a character is spelt where markup would otherwise be read.
//
// A character has an entity or a numeric reference exactly if it does not stand for itself.
ghost use Rattle.characters.specs.Spelling.{Escaped};
ghost use Rattle.characters.specs.Theorems.{SpellingSafe};

// Where a text stands.
#[derive(Clone, Copy, PartialEq, Eq, Debug)]
pub enum Where {
    // Between a start tag and an end tag.
    Content,
    // Between the quotes of an attribute.
    Attribute,
}

// The entity or the numeric reference by which a character must be spelt, or None where it stands for itself.
#[tactic(auto, unfolding(crate::specs::Spelling::spelling))]
pub fn escape(c: char, place: Where) -> Option<&'static str>
    ensures { Escaped place c result }
{
    let quoted = place == Where::Attribute;
    match c {
        '&' => Some("&amp;"),
        '<' => Some("&lt;"),
        '>' => Some("&gt;"),
        '\r' => Some("&#xD;"),
        '"' if quoted => Some("&quot;"),
        '\t' if quoted => Some("&#x9;"),
        '\n' if quoted => Some("&#xA;"),
        _ => None,
    }
}

// Nothing happens here. That this function is proved says that spelt text holds nothing that its readers would take for markup or
// would change, and nothing that XML forbids.
pub fn spelling_is_safe()
    ensures { SpellingSafe }
{}
