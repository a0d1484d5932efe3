use crate::shared::{LARGEST, large_connection, largest, refused};
use draft::examples::{example_a, example_b};
use image::{Image, copy, rewrite, write};
use std::alloc::Global;
use std::process::Abort;
use std::test::Fail;
use timetable::{ConnectionNo, Counts, Station, Timetable};

/// Written out again, the bytes are the same, and three bytes behind them stay; one byte less is refused.
fn comes_back(rt: &impl Abort, heap: Global, bytes: &[u8]) -> Result<(), Fail> {
    let length = bytes.len();
    let mut out = vec![in heap; 7; length.saturating_add(3)]?;
    assert_eq!(rt; rewrite(bytes, out.as_mut_slice())?, length);
    let mut expected = Vec::from_slice(heap, bytes)?;
    expected.extend_from_slice(&[7, 7, 7])?;
    assert!(rt; out.as_slice() == expected.as_slice());
    let mut exact = vec![in heap; 7; length]?;
    assert_eq!(rt; rewrite(bytes, exact.as_mut_slice())?, length);
    assert!(rt; exact.as_slice() == bytes);
    let mut short = vec![in heap; 7; length.saturating_sub(1)]?;
    assert_eq!(rt;
        refused(rewrite(bytes, short.as_mut_slice())),
        Some((12, 1, length))
    );
    assert!(rt; short.iter().all(|byte| *byte == 7));
    Ok(())
}

#[test]
fn examples(rt: HostRuntime) -> Result<(), Fail> {
    let heap = rt.alloc();
    let a = example_a(heap)?;
    assert_eq!(rt; a.bytes().len(), 94);
    comes_back(&rt, heap, a.bytes())?;
    let b = example_b(heap)?;
    assert_eq!(rt; b.bytes().len(), 44);
    comes_back(&rt, heap, b.bytes())
}

/// What the largest timetable answers.
fn ask_largest<T: Timetable>(rt: &impl Abort, t: &T) -> Result<(), Fail> {
    for number in 0..LARGEST.connections {
        assert!(rt; t.connection(ConnectionNo(number))? == large_connection(number));
    }
    assert_eq!(rt; t.transfer(Station(1023))?, 1440);
    assert_eq!(rt; refused(t.transfer(Station(1024))), Some((10, 1, 1024)));
    assert_eq!(rt;
        refused(t.connection(ConnectionNo(16384))),
        Some((10, 1, 16384))
    );
    Ok(())
}

fn open_largest(rt: &impl Abort, bytes: &[u8]) -> Result<(), Fail> {
    ask_largest(rt, &Image::try_from(bytes)?)
}

#[test]
fn largest_of_all(rt: HostRuntime) -> Result<(), Fail> {
    let heap = rt.alloc();
    let draft = largest(heap)?;
    let bytes = draft.bytes();
    assert_eq!(rt; bytes.len(), 198672);
    comes_back(&rt, heap, bytes)?;
    open_largest(&rt, bytes)
}

/// What timetable A answers.
fn ask_a<T: Timetable>(rt: &impl Abort, t: &T) -> Result<(), Fail> {
    let counts = Counts {
        period: 1440,
        stations: 3,
        trains: 5,
        connections: 6,
    };
    assert_eq!(rt; Counts::of(t), counts);
    assert_eq!(rt; t.transfer(Station(2))?, 4);
    assert_eq!(rt; refused(t.transfer(Station(3))), Some((10, 1, 3)));
    assert_eq!(rt; refused(t.transfer(Station(65535))), Some((10, 1, 65535)));
    assert_eq!(rt; t.connection(ConnectionNo(4))?.departure, 1430);
    assert_eq!(rt; refused(t.connection(ConnectionNo(6))), Some((10, 1, 6)));
    assert_eq!(rt;
        refused(t.connection(ConnectionNo(65535))),
        Some((10, 1, 65535))
    );
    Ok(())
}

#[test]
fn questions(rt: HostRuntime) -> Result<(), Fail> {
    let a = example_a(rt.alloc())?;
    ask_a(&rt, &Image::try_from(a.bytes())?)
}

#[test]
fn questions_to_the_smallest(rt: HostRuntime) -> Result<(), Fail> {
    let image = Image::smallest();
    let counts = Counts {
        period: 1,
        stations: 1,
        trains: 0,
        connections: 0,
    };
    assert_eq!(rt; Counts::of(&image), counts);
    assert_eq!(rt; image.transfer(Station(0))?, 0);
    assert_eq!(rt; refused(image.transfer(Station(1))), Some((10, 1, 1)));
    assert_eq!(rt;
        refused(image.connection(ConnectionNo(0))),
        Some((10, 1, 0))
    );
    Ok(())
}

#[test]
fn refused_keeps(rt: HostRuntime) -> Result<(), Fail> {
    let a = example_a(rt.alloc())?;
    let mut image = Image::smallest();
    image.open(a.bytes())?;
    assert_eq!(rt; refused(image.open(b"PTT")), Some((1, 1, 3)));
    assert_eq!(rt; image.period(), 1440);
    let mut short = [7; 93];
    assert_eq!(rt; refused(write(&image, &mut short)), Some((12, 1, 94)));
    assert!(rt; short == [7; 93]);
    let mut out = [7; 94];
    let mut reader = Image::smallest();
    copy(&image, &mut out, &mut reader)?;
    assert_eq!(rt; reader.stations(), 3);
    Ok(())
}
