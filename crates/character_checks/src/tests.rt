// Examples of the classes and of the spelling, run.
use characters::{
    Where, escape, is_language_tag_char, is_local_name_char, is_name_char, is_white_space,
    is_xml_char,
};

// Allowed by XML; white space; in a local name, first and later; in a language tag; in a name, first and later.
fn classes_of(c: char) -> [bool; 7] {
    [
        is_xml_char(c),
        is_white_space(c),
        is_local_name_char(c, true),
        is_local_name_char(c, false),
        is_language_tag_char(c),
        is_name_char(c, true),
        is_name_char(c, false),
    ]
}

#[test]
fn borders_of_the_classes(rt: HostRuntime) {
    let table = [
        ("\0\u{8}\u{b}\u{c}\u{e}\u{1f}\u{fffe}\u{ffff}", [false; 7]),
        (
            "!,/:@[^`{\u{bf}\u{d7}\u{f7}\u{37e}\u{2000}\u{3000}\u{e000}\u{fdd0}\u{f0000}\u{10ffff}",
            [true, false, false, false, false, false, false],
        ),
        ("\t\n\r ", [true, true, false, false, false, false, false]),
        ("AZaz", [true, false, true, true, true, true, true]),
        ("_", [true, false, true, true, false, true, true]),
        ("09-", [true, false, false, true, true, false, true]),
        (".", [true, false, false, true, false, false, true]),
        (
            "\u{c0}\u{2ff}\u{370}\u{1fff}\u{200c}\u{3001}\u{d7ff}\u{fffd}\u{10000}\u{effff}",
            [true, false, false, false, false, true, true],
        ),
        (
            "\u{b7}\u{300}\u{36f}\u{203f}\u{2040}",
            [true, false, false, false, false, false, true],
        ),
    ];
    for (chars, expected) in table {
        for c in chars.chars() {
            assert_eq!(rt; classes_of(c), expected);
        }
    }
}

#[test]
fn every_escape(rt: HostRuntime) {
    let alike = [
        ('&', "&amp;"),
        ('<', "&lt;"),
        ('>', "&gt;"),
        ('\r', "&#xD;"),
    ];
    for (c, text) in alike {
        assert_eq!(rt; escape(c, Where::Content), Some(text));
        assert_eq!(rt; escape(c, Where::Attribute), Some(text));
    }
    let quoted = [('"', "&quot;"), ('\t', "&#x9;"), ('\n', "&#xA;")];
    for (c, text) in quoted {
        assert_eq!(rt; escape(c, Where::Content), None);
        assert_eq!(rt; escape(c, Where::Attribute), Some(text));
    }
    assert_eq!(rt; escape('\'', Where::Attribute), None);
}
