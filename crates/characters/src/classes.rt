// Classes of characters.
//
// Each function answers whether a character lies in the ranges of its class. `first` says that the character opens a name. The
// two classes that ask it stay a match on ranges with guards, to be held against their tables line by line: a rule of the project.
ghost use Rattle.std.specs.Prelude.{◌≡◌};
ghost use Rattle.characters.specs.Classes.{is_local, is_name, is_tag, is_white, is_xml};
ghost use Rattle.characters.specs.Theorems.{ClassesDecided, NamesPlain};

// A character of XML 1.0.
#[tactic(auto, unfolding(crate::specs::Classes::is_xml))]
pub fn is_xml_char(c: char) -> bool
    ensures { result ≡ is_xml c }
{
    matches!(
        c,
        '\t' | '\n' | '\r' | ' '..='\u{d7ff}' | '\u{e000}'..='\u{fffd}' | '\u{10000}'..='\u{10ffff}'
    )
}

// Tab, line feed, carriage return and space.
#[tactic(auto, unfolding(crate::specs::Classes::is_white))]
pub fn is_white_space(c: char) -> bool
    ensures { result ≡ is_white c }
{
    matches!(c, '\t' | '\n' | '\r' | ' ')
}

// A character of a local name: ASCII letters and `_`, and behind the first also digits, `.` and `-`.
#[tactic(auto, unfolding(crate::specs::Classes::is_local))]
pub fn is_local_name_char(c: char, first: bool) -> bool
    ensures { result ≡ is_local first c }
{
    match c {
        'A'..='Z' | '_' | 'a'..='z' => true,
        '0'..='9' | '.' | '-' if !first => true,
        _ => false,
    }
}

// A character of a language tag: ASCII letters, digits and `-`.
#[tactic(auto, unfolding(crate::specs::Classes::is_tag))]
pub fn is_language_tag_char(c: char) -> bool
    ensures { result ≡ is_tag c }
{
    matches!(c, 'A'..='Z' | 'a'..='z' | '0'..='9' | '-')
}

// A character of a name of XML 1.0 (fifth edition) that has no colon.
#[tactic(auto, unfolding(crate::specs::Classes::is_name))]
pub fn is_name_char(c: char, first: bool) -> bool
    ensures { result ≡ is_name first c }
{
    match c {
        'A'..='Z' | '_' | 'a'..='z' => true,
        '\u{c0}'..='\u{d6}' | '\u{d8}'..='\u{f6}' | '\u{f8}'..='\u{2ff}' => true,
        '\u{370}'..='\u{37d}' | '\u{37f}'..='\u{1fff}' => true,
        '\u{200c}'..='\u{200d}' | '\u{2070}'..='\u{218f}' => true,
        '\u{2c00}'..='\u{2fef}' | '\u{3001}'..='\u{d7ff}' => true,
        '\u{f900}'..='\u{fdcf}' | '\u{fdf0}'..='\u{fffd}' => true,
        '\u{10000}'..='\u{effff}' => true,
        '-' | '.' | '0'..='9' | '\u{b7}' if !first => true,
        '\u{300}'..='\u{36f}' | '\u{203f}'..='\u{2040}' if !first => true,
        _ => false,
    }
}

// Nothing happens here. That this function is proved says that the test of each class is true of the characters in its ranges and
// of no others.
pub fn classes_are_decided()
    ensures { ClassesDecided }
{}

// Nothing happens here. That this function is proved says that a character of XML is a scalar value, and that a character of a
// name or a language tag is one of XML, no white space and no markup.
pub fn names_are_plain()
    ensures { NamesPlain }
{}
