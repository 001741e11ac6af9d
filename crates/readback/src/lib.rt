// Reading back: canonical text is read as the elements that it was written from.
//
// The meaning stands in specs/.
#![tactic(auto)]

ghost use Rattle.readback.specs.Meaning.{ReadsBack};

// Nothing happens here. That this function is proved says that for every lawful tree and every padding, the markup of its canonical
// text is read back.
pub fn canonical_markup_is_read_back()
    ensures { ReadsBack }
{}
