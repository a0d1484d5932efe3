//! The worked example: timetable A from plain numbers to an image and back.

use crate::failure::{Failure, of_file};
use crate::files::opened;
use draft::examples::example_a;
use image::write;
use listing::{counts, listing};
use std::fmt;

/// Bytes in hexadecimal, sixteen to a line.
#[derive(Clone, Copy)]
struct Dump<'a>(&'a [u8]);

impl fmt::Display for Dump<'_> {
    fn fmt<W: fmt::Write>(&self, f: &mut fmt::Formatter<W>) -> fmt::Result {
        for (place, line) in (0..self.0.len()).step_by(16).zip(self.0.chunks(16)) {
            write!(f, "\n  {place:4}:")?;
            for byte in line {
                write!(f, " {byte:02x}")?;
            }
        }
        Ok(())
    }
}

/// Builds the image, opens it, lists it, writes it out again and compares the bytes, and prints each step.
pub(crate) fn run(rt: &HostRuntime) -> Result<(), Failure> {
    let heap = rt.alloc();
    let name = "timetable A";
    let draft = example_a(heap)?;
    let bytes = draft.bytes();
    let length = bytes.len();
    let dump = Dump(bytes);
    println!(rt; "build {name} as an image: {length} bytes{dump}")?;
    let image = opened(heap, name, bytes)?;
    println!(rt; "open it: {}", counts(heap, &image)?)?;
    rt.println("list it:")?;
    rt.print(listing(heap, &image)?)?;
    let mut out = vec![in heap; 0; length]?;
    let written = of_file(heap, name, write(&image, out.as_mut_slice()))?;
    println!(rt; "write it out again: {written} bytes")?;
    let same = if out.as_slice() == bytes {
        "the same"
    } else {
        "not the same"
    };
    println!(rt; "compare the bytes: {same}")?;
    Ok(())
}
