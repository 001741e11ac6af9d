// Runs the Unicode Standard's examples of the encoding forms and of ill-formed sequences through the text codes, and prints
// what comes out. The file stdout beside src/ has what the standard says.
#![tactic(auto)]

ghost use Rattle.std.specs.Prelude.{◌<◌, ◌≤◌, length};

use code::{TextCode, Utf8, Utf16Be, Utf16Le};
use hex::Hex;
use std::io;
use vectors::{ENCODED, UTF8, UTF16_BE, UTF16_LE, Vectors};

mod hex;
mod vectors;

// The character whose bytes come first, and their count. Where there is none, U+FFFD in place of one unit, in UTF-8 a byte.
fn front<C: TextCode>(bytes: &[u8]) -> (char, usize)
    requires { 0 < length bytes.now }
    ensures some { 0 < result.1 }
    ensures within { result.1 ≤ length bytes.now }
{
    C::decode(bytes).unwrap_or(('\u{FFFD}', C::unit().min(bytes.len())))
}

// The character that stands first.
fn show_decoded<C: TextCode>(rt: &impl Print, code: &str, bytes: &[u8]) -> io::Result<()> {
    let shown = Hex(bytes);
    match C::decode(bytes) {
        Ok((c, n)) => {
            let plural = if n == 1 { "" } else { "s" };
            println!(rt; "{code} {shown}: U+{:04X}, {n} byte{plural}", u32::from(c))
        }
        Err(_) => println!(rt; "{code} {shown}: refused"),
    }
}

// All that stands there, one character after the other.
fn show_stepped<C: TextCode>(rt: &impl Print, code: &str, bytes: &[u8]) -> io::Result<()> {
    let shown = Hex(bytes);
    print!(rt; "{code} {shown} stepped:")?;
    let mut rest = bytes;
    while !rest.is_empty() {
        let (c, n) = front::<C>(rest);
        print!(rt; " {:04X}", u32::from(c))?;
        rest = &rest[n..];
    }
    println!(rt; "")
}

// The bytes of a code point.
fn show_encoded<C: TextCode>(rt: &impl Print, code: &str, v: u32) -> io::Result<()> {
    match C::encode(v) {
        Ok(bytes) => {
            let shown = Hex(bytes.as_slice());
            println!(rt; "{code} encode U+{v:04X}: {shown}")
        }
        Err(_) => println!(rt; "{code} encode U+{v:04X}: refused"),
    }
}

// A line for each vector of one code.
fn show<C: TextCode>(rt: &impl Print, vectors: &Vectors) -> io::Result<()> {
    let code = vectors.code;
    for bytes in vectors.decoded {
        show_decoded::<C>(rt, code, bytes)?;
    }
    for bytes in vectors.stepped {
        show_stepped::<C>(rt, code, bytes)?;
    }
    for v in ENCODED {
        show_encoded::<C>(rt, code, *v)?;
    }
    Ok(())
}

fn main(rt: HostRuntime) -> io::Result<()> {
    show::<Utf8>(&rt, &UTF8)?;
    show::<Utf16Be>(&rt, &UTF16_BE)?;
    show::<Utf16Le>(&rt, &UTF16_LE)
}
