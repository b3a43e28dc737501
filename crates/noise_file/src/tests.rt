//! Each refusal of a file reached once with its place; an example file, whole, cut and fed.
use crate::fault::{EntryFault, FileFault};
use crate::file::NoiseFile;
use crate::kind::{Die, Label, read_body};
use extractors::fault::Fault;
use std::alloc::{AllocError, Global};
use std::test::Fail;
use well::store::Well;

const EXAMPLE: &[u8] = b"\x03\x01Cv\x00\x07Lv\x00\x0bCv\x00\x08HTTHHHTacababbacabHTTTHHTH";

fn refusal(heap: Global, bytes: &[u8]) -> Result<Option<(u8, usize)>, AllocError> {
    let opened = NoiseFile::open(Vec::from_slice(heap, bytes)?);
    Ok(opened.err().map(|fault| (fault.number(), fault.place())))
}

#[test]
fn refuses_with_number_and_place(rt: HostRuntime) -> Result<(), Fail> {
    assert_eq!(rt; refusal(rt.alloc(), b"\x03")?, Some((7, 1)));
    assert_eq!(rt; refusal(rt.alloc(), b"\x10\x01")?, Some((8, 0)));
    assert_eq!(rt; refusal(rt.alloc(), b"\x01\x21")?, Some((9, 1)));
    assert_eq!(rt; refusal(rt.alloc(), b"\x01\x01C")?, Some((7, 3)));
    assert_eq!(rt; refusal(rt.alloc(), b"\x01\x01Xv\x00\x00")?, Some((10, 2)));
    assert_eq!(rt; refusal(rt.alloc(), b"\x01\x01Cx\x00\x00")?, Some((11, 3)));
    assert_eq!(rt; refusal(rt.alloc(), b"\x01\x01Cv\x10\x01")?, Some((12, 4)));
    assert_eq!(rt; refusal(rt.alloc(), b"\x01\x01Cv\x00\x00H")?, Some((13, 6)));
    assert_eq!(rt;
        refusal(rt.alloc(), b"\x01\x01Cv\x00\x02Ha")?,
        Some((14, 7))
    );
    Ok(())
}

#[test]
fn refuses_every_cut(rt: HostRuntime) -> Result<(), Fail> {
    for n in 0..EXAMPLE.len() {
        let number = if n < 14 { 7 } else { 13 };
        assert_eq!(rt; refusal(rt.alloc(), &EXAMPLE[0..n])?, Some((number, n)));
    }
    Ok(())
}

#[test]
fn opens_the_example(rt: HostRuntime) -> Result<(), Fail> {
    let file = NoiseFile::open(Vec::from_slice(rt.alloc(), EXAMPLE)?)?;
    assert_eq!(rt; file.entries(), 3);
    assert_eq!(rt; file.key_length(), 1);
    let labels = file.entry(2)?;
    assert_eq!(rt; labels.kind_letter(), 'L');
    assert_eq!(rt; labels.body().tower.letter(), 'v');
    assert_eq!(rt; labels.body().at, 21);
    let codes = read_body::<Label>(rt.alloc(), labels.body().letters)?;
    assert!(rt; codes.len() == 11 && codes[1] == 2);
    assert!(rt; file.entry(0).is_err());
    assert_eq!(rt; file.entry(4).err(), Some(FileFault::Number(4)));
    Ok(())
}

#[test]
fn reads_only_letters_of_the_kind(rt: HostRuntime) -> Result<(), Fail> {
    let read = read_body::<Die>(rt.alloc(), b"1627");
    assert_eq!(rt; read.err(), Some(FileFault::Letter(3)), "7 is no face");
    Ok(())
}

#[test]
fn feeds_an_entry(rt: HostRuntime) -> Result<(), Fail> {
    let file = NoiseFile::open(Vec::from_slice(rt.alloc(), EXAMPLE)?)?;
    let mut well = Well::new(rt.alloc(), 1)?;
    let mut tray = [9; 7];
    assert_eq!(rt; file.feed(1, rt.alloc(), &mut well, &mut tray)?, (2, 0));
    assert_eq!(rt; tray, [0; 7]);
    assert_eq!(rt; well.held(), 2);
    Ok(())
}

#[test]
fn a_refused_feed_names_its_entry(rt: HostRuntime) -> Result<(), Fail> {
    let file = NoiseFile::open(Vec::from_slice(rt.alloc(), EXAMPLE)?)?;
    let mut well = Well::new(rt.alloc(), 1)?;
    let mut tray = [9; 7];
    assert_eq!(rt;
        figures(file.feed(4, rt.alloc(), &mut well, &mut tray)),
        Some((4, 15, 4))
    );
    assert_eq!(rt; tray, [0; 7]);
    assert_eq!(rt;
        figures(file.feed(2, rt.alloc(), &mut well, &mut tray)),
        Some((2, 4, 7))
    );
    assert_eq!(rt; well.poured(), 0);
    Ok(())
}

// The entry, the number and the place of a refusal.
fn figures(answer: Result<(u32, i32), EntryFault>) -> Option<(usize, u8, usize)> {
    answer
        .err()
        .map(|fault| (fault.entry, fault.number(), fault.place()))
}
