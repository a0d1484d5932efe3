//! The commands on image files.

use crate::failure::{Failure, of_file};
use image::{Image, rewrite};
use listing::{counts, listing};
use std::alloc::Global;
use std::fs;

/// The bytes of a file.
pub(crate) fn contents(rt: &HostRuntime, path: &str) -> Result<Vec<u8>, Failure> {
    of_file(rt.alloc(), path, fs::read(rt, path))
}

// A function over both readers would be no shorter at each call.
/// The text of a file.
pub(crate) fn text_of(rt: &HostRuntime, path: &str) -> Result<String, Failure> {
    of_file(rt.alloc(), path, fs::read_to_string(rt, path))
}

/// The timetable in an image's bytes.
pub(crate) fn opened<'a>(heap: Global, path: &str, bytes: &'a [u8]) -> Result<Image<'a>, Failure> {
    of_file(heap, path, Image::try_from(bytes))
}

/// Opens an image and prints its counts.
pub(crate) fn check(rt: &HostRuntime, path: &str) -> Result<(), Failure> {
    let bytes = contents(rt, path)?;
    let image = opened(rt.alloc(), path, bytes.as_slice())?;
    let counts = counts(rt.alloc(), &image)?;
    println!(rt; "{path}: {counts}")?;
    Ok(())
}

/// Opens an image and lists it.
pub(crate) fn show(rt: &HostRuntime, path: &str) -> Result<(), Failure> {
    let bytes = contents(rt, path)?;
    let image = opened(rt.alloc(), path, bytes.as_slice())?;
    rt.println(counts(rt.alloc(), &image)?)?;
    rt.print(listing(rt.alloc(), &image)?)?;
    Ok(())
}

/// Opens an image, writes it out again, and says whether the bytes are the same.
pub(crate) fn write(rt: &HostRuntime, path: &str, out: &str) -> Result<(), Failure> {
    let heap = rt.alloc();
    let bytes = contents(rt, path)?;
    let mut copy = vec![in heap; 0; bytes.len()]?;
    let count = of_file(heap, path, rewrite(bytes.as_slice(), copy.as_mut_slice()))?;
    of_file(heap, out, fs::write(rt, out, copy.as_slice()))?;
    let same = if copy.as_slice() == bytes.as_slice() {
        "the same as"
    } else {
        "other than"
    };
    println!(rt; "{out}: {count} bytes, {same} {path}")?;
    Ok(())
}
