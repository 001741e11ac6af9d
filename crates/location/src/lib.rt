// What is to be said of the packet of a file: its code, where it stands, how long it is and whether it may be written; or the
// refusal.
#![tactic(auto)]

ghost use Rattle.std.specs.Prelude.{◌≡◌, IfOk, string_bytes};
ghost use Rattle.fault.specs.Text.{text_of_refusal};
ghost use Rattle.location.specs.Text.{Located, text_of_packet, text_of_found};
ghost use Rattle.medium.specs.Cells.{flat_cells};

use fault::{Fault, Report};
use medium::Flat;
use packet::{AnyFound, Extent, find_any};
use std::alloc::{AllocError, Global};

// The text that is said of a file's bytes. It is refused only for want of memory.
pub fn locate_text(heap: Global, bytes: &mut [u8]) -> Result<String, AllocError>
    ensures { IfOk result (λ s. Located (flat_cells bytes.old) (string_bytes s)) }
{
    let medium = Flat::new(bytes);
    match find_any(&medium) {
        Ok(found) => found_text(heap, found),
        Err(fault) => refusal_text(heap, fault.report()),
    }
}

fn found_text(heap: Global, found: AnyFound) -> Result<String, AllocError>
    ensures { IfOk result (λ s. string_bytes s ≡ text_of_found found) }
{
    let (code, extent, writable) = match found {
        AnyFound::InUtf8(found) => ("UTF-8", found.extent(), found.writable()),
        AnyFound::InUtf16Be(found) => ("UTF-16BE", found.extent(), found.writable()),
        AnyFound::InUtf16Le(found) => ("UTF-16LE", found.extent(), found.writable()),
    };
    packet_text(heap, code, extent, writable)
}

fn packet_text(
    heap: Global,
    code: &str,
    extent: Extent,
    writable: bool,
) -> Result<String, AllocError>
    ensures { IfOk result (λ s. string_bytes s ≡ text_of_packet code.now extent.place extent.len writable) }
{
    let place = extent.place();
    let len = extent.len();
    let may = if writable { "yes" } else { "no" };
    format!(in heap; "code: {code}\nplace: {place}\nlength: {len}\nwritable: {may}\n")
}

// The line of a refusal: layer, number and place.
#[tactic(auto, using(crate::proofs::Told::one_line))]
pub fn refusal_text(heap: Global, report: Report) -> Result<String, AllocError>
    ensures { IfOk result (λ s. string_bytes s ≡ text_of_refusal report) }
{
    format!(in heap; "{report}\n")
}
