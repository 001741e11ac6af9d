// Bytes as text.
use std::fmt;

// Each byte as two hexadecimal digits, with a space between. (What it writes is compared with a stored text, and not stated.)
#[derive(Clone, Copy)]
pub struct Hex<'a>(pub &'a [u8]);

impl fmt::Display for Hex<'_> {
    fn fmt<W: fmt::Write>(&self, f: &mut fmt::Formatter<W>) -> fmt::Result {
        let mut gap = "";
        for b in self.0 {
            write!(f, "{gap}{b:02X}")?;
            gap = " ";
        }
        Ok(())
    }
}
