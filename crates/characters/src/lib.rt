// Characters of marked-up text: which of them XML allows, which may stand in names and language tags, and how each is spelt.
//
// Every class is a list of ranges of character numbers, and the functions answer exactly whether a character lies in one of them.
#![tactic(auto)]

mod classes;
mod escapes;

pub use classes::{
    classes_are_decided, is_language_tag_char, is_local_name_char, is_name_char, is_white_space,
    is_xml_char, names_are_plain,
};
pub use escapes::{Where, escape, spelling_is_safe};
