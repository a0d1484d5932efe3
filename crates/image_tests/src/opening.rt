use crate::shared::{opened, two_connections};
use draft::Draft;
use std::alloc::Global;
use std::process::Abort;
use std::test::Fail;
use timetable::Counts;

/// One number of the image of two connections set to a value, or two, and number and item of the refusal that follows, if
/// one does.
#[derive(Clone, Copy)]
struct Case {
    first: (usize, u16),
    second: Option<(usize, u16)>,
    refused: Option<(u8, usize)>,
}

const fn one(place: usize, value: u16, refused: Option<(u8, usize)>) -> Case {
    Case {
        first: (place, value),
        second: None,
        refused,
    }
}

const fn two(first: (usize, u16), second: (usize, u16), refused: Option<(u8, usize)>) -> Case {
    Case {
        first,
        second: Some(second),
        refused,
    }
}

fn set(bytes: &mut Vec<u8>, (place, value): (usize, u16)) {
    for (byte, new) in bytes.iter_mut().skip(place).zip(value.to_le_bytes()) {
        *byte = new;
    }
}

fn holds(heap: Global, case: &Case) -> Result<bool, Fail> {
    let draft = two_connections(heap)?;
    let mut bytes = Vec::from_slice(heap, draft.bytes())?;
    set(&mut bytes, case.first);
    if let Some(second) = case.second {
        set(&mut bytes, second);
    }
    let refused = case.refused.map(|(number, item)| (number, 1, item));
    Ok(opened(bytes.as_slice())? == refused)
}

fn check_all(rt: &impl Abort, heap: Global, cases: &[Case]) -> Result<(), Fail> {
    for (place, case) in cases.iter().enumerate() {
        assert!(rt; holds(heap, case)?, "the case at place {place}");
    }
    Ok(())
}

#[test]
fn lengths(rt: HostRuntime) -> Result<(), Fail> {
    let heap = rt.alloc();
    let mut bytes = Vec::from_slice(heap, two_connections(heap)?.bytes())?;
    assert_eq!(rt; opened(bytes.as_slice())?, None);
    bytes.push(0)?;
    assert_eq!(rt; opened(bytes.as_slice())?, Some((5, 1, 47)));
    bytes.truncate(45);
    assert_eq!(rt; opened(bytes.as_slice())?, Some((5, 1, 45)));
    bytes.truncate(16);
    assert_eq!(rt; opened(bytes.as_slice())?, Some((5, 1, 16)));
    bytes.truncate(15);
    assert_eq!(rt; opened(bytes.as_slice())?, Some((1, 1, 15)));
    bytes.truncate(0);
    assert_eq!(rt; opened(bytes.as_slice())?, Some((1, 1, 0)));
    Ok(())
}

#[test]
fn smallest(rt: HostRuntime) -> Result<(), Fail> {
    let mut draft = Draft::new(
        rt.alloc(),
        Counts {
            period: 1,
            stations: 1,
            trains: 0,
            connections: 0,
        },
    )?;
    assert_eq!(rt; opened(draft.bytes())?, Some((5, 1, 16)));
    draft.transfer(0)?;
    assert_eq!(rt; opened(draft.bytes())?, None);
    Ok(())
}

#[test]
fn headers(rt: HostRuntime) -> Result<(), Fail> {
    let cases = [
        one(0, 0x5451, Some((2, 0))),
        one(0, 0x5550, Some((2, 1))),
        one(2, 0x0055, Some((2, 2))),
        one(2, 0x0154, Some((2, 3))),
        two((0, 0), (2, 0), Some((2, 0))),
        two((2, 0x0154), (4, 2), Some((2, 3))),
        one(4, 0, Some((3, 0))),
        one(4, 2, Some((3, 2))),
        one(4, 256, Some((3, 256))),
        one(4, 65535, Some((3, 65535))),
        two((4, 2), (6, 0), Some((3, 2))),
        one(6, 0, Some((4, 6))),
        one(6, 10080, None),
        one(6, 10081, Some((4, 6))),
        one(6, 65535, Some((4, 6))),
        one(8, 0, Some((4, 8))),
        one(8, 1024, Some((5, 46))),
        one(8, 1025, Some((4, 8))),
        one(8, 65535, Some((4, 8))),
        one(10, 1, None),
        one(10, 4096, None),
        one(10, 4097, Some((4, 10))),
        one(10, 65535, Some((4, 10))),
        one(12, 1, Some((5, 46))),
        one(12, 16384, Some((5, 46))),
        one(12, 16385, Some((4, 12))),
        one(12, 65535, Some((4, 12))),
        one(14, 1, Some((4, 14))),
        one(14, 256, Some((4, 14))),
        two((12, 65535), (8, 0), Some((4, 8))),
        two((12, 1), (16, 1441), Some((5, 46))),
    ];
    check_all(&rt, rt.alloc(), &cases)
}

#[test]
fn bodies(rt: HostRuntime) -> Result<(), Fail> {
    let cases = [
        one(16, 1440, None),
        one(16, 1441, Some((6, 0))),
        one(18, 1441, Some((6, 1))),
        one(20, 65535, Some((6, 2))),
        two((20, 1441), (18, 1441), Some((6, 1))),
        two((20, 1441), (22, 9), Some((6, 2))),
        one(10, 0, Some((7, 0))),
        one(6, 99, Some((7, 1))),
        one(22, 2, Some((7, 0))),
        one(22, 65535, Some((7, 0))),
        one(24, 3, Some((7, 0))),
        one(26, 3, Some((7, 0))),
        one(28, 99, None),
        one(28, 100, Some((7, 0))),
        one(30, 0, Some((7, 0))),
        one(30, 10080, None),
        one(30, 10081, Some((7, 0))),
        one(32, 0, None),
        one(32, 2, Some((7, 0))),
        one(32, 256, Some((7, 0))),
        one(44, 65535, Some((7, 1))),
        one(24, 1, Some((8, 0))),
        one(26, 0, Some((8, 0))),
        one(36, 2, Some((8, 1))),
        one(34, 1, None),
        one(22, 1, Some((9, 1))),
        one(26, 2, Some((9, 1))),
        one(36, 0, Some((9, 1))),
        two((34, 1), (36, 0), None),
        two((36, 2), (44, 2), Some((7, 1))),
        two((26, 2), (36, 2), Some((8, 1))),
        two((26, 0), (40, 100), Some((8, 0))),
    ];
    check_all(&rt, rt.alloc(), &cases)
}
