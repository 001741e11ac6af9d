// The Unicode Standard's examples: of the encoding forms (section 3.9) and the encoding schemes (section 3.10).

// What one text code is run on.
pub struct Vectors {
    pub code: &'static str,
    // Of each the first character is decoded.
    pub decoded: &'static [&'static [u8]],
    // Each is decoded to its end.
    pub stepped: &'static [&'static [u8]],
}

// The code points that every code encodes.
pub const ENCODED: &[u32] = &[
    // The examples.
    0x4d, 0x430, 0x4e8c, 0x10302,
    // The least and the greatest that are a surrogate pair in UTF-16.
    0x10000, 0x10ffff,
    // No scalar values.
    0xd800, 0xdfff, 0x110000,
];

pub const UTF8: Vectors = Vectors {
    code: "UTF-8",
    decoded: &[
        // The example characters U+004D, U+0430, U+4E8C, U+10302.
        b"\x4d",
        b"\xd0\xb0",
        b"\xe4\xba\x8c",
        b"\xf0\x90\x8c\x82",
        // Table 3-7, well-formed sequences: the lowest and the highest of each of its nine rows.
        b"\x00",
        b"\x7f",
        b"\xc2\x80",
        b"\xdf\xbf",
        b"\xe0\xa0\x80",
        b"\xe0\xbf\xbf",
        b"\xe1\x80\x80",
        b"\xec\xbf\xbf",
        b"\xed\x80\x80",
        b"\xed\x9f\xbf",
        b"\xee\x80\x80",
        b"\xef\xbf\xbf",
        b"\xf0\x90\x80\x80",
        b"\xf0\xbf\xbf\xbf",
        b"\xf1\x80\x80\x80",
        b"\xf3\xbf\xbf\xbf",
        b"\xf4\x80\x80\x80",
        b"\xf4\x8f\xbf\xbf",
        // Ill-formed: two that are longer than needed, and one that lacks its last byte.
        b"\xc0\xaf",
        b"\xe0\x9f\x80",
        b"\xf4\x80\x83",
    ],
    stepped: &[
        // Table 3-8, sequences longer than needed.
        b"\xc0\xaf\xe0\x80\xbf\xf0\x81\x82\x41",
        // Table 3-9, surrogates.
        b"\xed\xa0\x80\xed\xbf\xbf\xed\xaf\x41",
        // Table 3-10, other ill-formed sequences.
        b"\xf4\x91\x92\x93\xff\x41\x80\xbf\x42",
        // Table 3-11, sequences cut short. The table has one U+FFFD for each longest piece that begins a well-formed sequence,
        // which makes four. Here each step is one byte, so there is one for each byte at which no well-formed sequence begins.
        b"\xe1\x80\xe2\xf0\x91\x92\xf1\xbf\x41",
    ],
};

pub const UTF16_BE: Vectors = Vectors {
    code: "UTF-16BE",
    decoded: &[
        // The example characters.
        b"\x00\x4d",
        b"\x04\x30",
        b"\x4e\x8c",
        b"\xd8\x00\xdf\x02",
        // The least and the greatest pair.
        b"\xd8\x00\xdc\x00",
        b"\xdb\xff\xdf\xff",
        // A high surrogate with no low one behind it, a low one alone, a high one at the end.
        b"\xd8\x00\x00\x41",
        b"\xdc\x00",
        b"\xd8\x00",
    ],
    // A surrogate with no other, and U+0041.
    stepped: &[b"\xd8\x00\x00\x41", b"\xdc\x00\x00\x41"],
};

pub const UTF16_LE: Vectors = Vectors {
    code: "UTF-16LE",
    // The same units as above.
    decoded: &[
        b"\x4d\x00",
        b"\x30\x04",
        b"\x8c\x4e",
        b"\x00\xd8\x02\xdf",
        b"\x00\xd8\x00\xdc",
        b"\xff\xdb\xff\xdf",
        b"\x00\xd8\x41\x00",
        b"\x00\xdc",
        b"\x00\xd8",
    ],
    stepped: &[b"\x00\xd8\x41\x00", b"\x00\xdc\x41\x00"],
};
