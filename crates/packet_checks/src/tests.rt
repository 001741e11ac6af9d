use code::{CodeFault, Utf8};
use location::locate_text;
use medium::{Medium, MediumFault};
use packet::{PacketFault, find};
use std::test::Fail;
use text::Text;
use volume::Volume;

// What is said of a file that holds the texts in a row.
fn said(rt: &HostRuntime, texts: &[&[u8]], expected: &str) -> Result<(), Fail> {
    let mut bytes = Vec::new(rt.alloc());
    for text in texts {
        bytes.extend_from_slice(text)?;
    }
    let text = locate_text(rt.alloc(), bytes.as_mut_slice())?;
    if text.as_str() != expected {
        return Err(Fail::new("another text was said"));
    }
    Ok(())
}

const HEADER: &[u8] = b"<?xpacket begin='' id=\"W5M0MpCehiHzreSzNTczkc9d\"?>";

#[test]
fn nothing_in_an_empty_file(rt: HostRuntime) -> Result<(), Fail> {
    said(&rt, &[], "packet 3 0\n")
}

#[test]
fn a_packet_to_be_written(rt: HostRuntime) -> Result<(), Fail> {
    let expected = "code: UTF-8\nplace: 2\nlength: 73\nwritable: yes\n";
    said(
        &rt,
        &[b"..", HEADER, b"text<?xpacket end='w'?>.."],
        expected,
    )
}

#[test]
fn the_first_trailer_counts(rt: HostRuntime) -> Result<(), Fail> {
    let expected = "code: UTF-8\nplace: 0\nlength: 69\nwritable: no\n";
    said(
        &rt,
        &[HEADER, b"<?xpacket end=\"r\"?><?xpacket end='w'?>"],
        expected,
    )
}

#[test]
fn a_header_without_a_trailer(rt: HostRuntime) -> Result<(), Fail> {
    said(
        &rt,
        &[b"...", HEADER, b"<?xpacket end='x'?>"],
        "packet 4 3\n",
    )
}

#[test]
fn no_character_before_the_trailer(rt: HostRuntime) -> Result<(), Fail> {
    said(
        &rt,
        &[HEADER, b"a\xc0\x80<?xpacket end='w'?>"],
        "code 5 51\n",
    )
}

#[test]
fn a_lost_block_before_the_trailer(rt: HostRuntime) -> Result<(), Fail> {
    let mut bytes = [0u8; 1024];
    bytes[511] = 1;
    let mut reel = Volume::new(&mut bytes);
    for (place, b) in (458..).zip(HEADER) {
        reel.put(place, *b)?;
    }
    let lost = CodeFault::Unread(MediumFault::Lost { place: 508 });
    assert_eq!(rt;
        find(&Text::<Utf8, Volume>::new(&reel)).err(),
        Some(PacketFault::Unreadable(lost))
    );
    Ok(())
}
