// What is proved of canonical text. Nothing happens in these functions: that one is proved says that its statement holds.
ghost use Rattle.canonical.specs.Promises.{Distinct, Filled, Framed, Readable};

// What stands between header and trailer keeps to the limits of markup and to XML's characters, and has no `<?`.
pub fn canonical_text_is_readable()
    ensures { Readable }
{}

// The header is one, in every code, and the trailer is one that lets the packet be written.
pub fn canonical_text_is_framed()
    ensures { Framed }
{}

// The canonical text with its padding takes as many bytes as the packet has, in every code.
pub fn canonical_text_fills_the_packet()
    ensures { Filled }
{}

// Namespaces have prefixes that differ from one another and from rdf, xml and xmlns.
pub fn prefixes_are_distinct()
    ensures { Distinct }
{}
