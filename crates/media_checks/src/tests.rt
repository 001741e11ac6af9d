// Examples of the media, run.
use super::*;
use fault::{Fault, Layer, Report};
use std::test::Fail;
use survey::survey_text;
use volume::data_check;

// One reel block whose data bytes are all `b`, and its check.
fn block_of(b: u8) -> [u8; 512] {
    let mut block = [b; 512];
    block[508..].copy_from_slice(&data_check(&[b; 508]).to_be_bytes());
    block
}

#[test]
fn checks_of_the_settled_examples(rt: HostRuntime) {
    let mut last = [0u8; 508];
    last[507] = 255;
    assert_eq!(rt; data_check(&[0; 508]), 1);
    assert_eq!(rt; data_check(&last), 129541);
    assert_eq!(rt;
        data_check(&[255; 508]).to_be_bytes(),
        [0x01, 0xf7, 0x0c, 0xfb]
    );
}

#[test]
fn flat_bytes_are_replaced(rt: HostRuntime) {
    let mut bytes = *b"cells";
    assert_eq!(rt; put_flat(&mut bytes, 1, b'o'), Ok(()));
    assert_eq!(rt;
        put_flat(&mut bytes, 5, b'!'),
        Err(MediumFault::OutOfRange { place: 5 })
    );
    assert_eq!(rt; bytes, *b"colls");
}

#[test]
fn a_put_renews_the_check(rt: HostRuntime) {
    let mut block = block_of(7);
    assert_eq!(rt; put_reel(&mut block, 0, 8), Ok(()));
    assert_eq!(rt; Volume::new(&mut block).fetch(0), Ok(8));
}

#[test]
fn a_block_of_zeros_is_lost(rt: HostRuntime) {
    let mut block = [0u8; 512];
    let report = Report {
        layer: Layer::Medium,
        number: 2,
        place: 3,
    };
    assert_eq!(rt;
        put_reel(&mut block, 3, 1).map_err(|fault| fault.report()),
        Err(report)
    );
}

#[test]
fn windows_nest_and_have_places_of_their_own(rt: HostRuntime) {
    let mut block = block_of(9);
    let mut reel = Volume::new(&mut block);
    assert_eq!(rt; reel.put(130, 42), Ok(()));
    let outer = Window::new(&mut reel, 100, 400);
    let mut inner = Window::new(outer, 20, 1000);
    assert_eq!(rt; inner.size(), 380);
    assert_eq!(rt; inner.fetch(10), Ok(42));
    assert_eq!(rt;
        inner.put(380, 1),
        Err(MediumFault::OutOfRange { place: 380 })
    );
    assert_eq!(rt; put_then_fetch(&mut inner, 5, 10, 5, 43), Ok(43));
    assert_eq!(rt; reel.fetch(130), Ok(43));
}

#[test]
fn a_survey_of_nothing(rt: HostRuntime) -> Result<(), Fail> {
    let text = survey_text(rt.alloc(), &[])?;
    assert_eq!(rt;
        text.as_str(),
        "blocks: 0\nsound: 0\nlost: 0\nreadable cells: 0\nbytes in no block: 0\n"
    );
    Ok(())
}

#[test]
fn a_survey_of_too_many_blocks(rt: HostRuntime) -> Result<(), Fail> {
    let bytes = vec![in rt.alloc(); 0u8; 512 * 2049 + 7]?;
    let text = survey_text(rt.alloc(), bytes.as_slice())?;
    let head =
        "blocks: 2048\nsound: 0\nlost: 2048\nreadable cells: 0\nbytes in no block: 519\nblock 0 is lost: its check is 0 and should be 1\n";
    assert!(rt; text.as_str().starts_with(head));
    assert_eq!(rt; text.as_str().lines().count(), 5 + 2048);
    Ok(())
}
