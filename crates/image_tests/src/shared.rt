use draft::Draft;
use draft::examples::runs;
use image::Image;
pub use refusals::refused_as as refused;
use std::alloc::{AllocError, Global};
use std::test::Fail;
use timetable::{Connection, Counts};

/// Number, layer and item of the refusal to open the bytes, if there is one. It fails where a reader that is told to open
/// them answers otherwise than `try_from`.
pub fn opened(bytes: &[u8]) -> Result<Option<(u8, u8, usize)>, Fail> {
    let mut image = Image::smallest();
    let told = refused(image.open(bytes));
    if refused(Image::try_from(bytes)) != told {
        return Err(Fail::new("`open` and `try_from` differ"));
    }
    Ok(told)
}

/// One train over three stations in a period of 100: 46 bytes, with records at 22 and 34.
pub fn two_connections(heap: Global) -> Result<Draft, AllocError> {
    let counts = Counts {
        period: 100,
        stations: 3,
        trains: 2,
        connections: 2,
    };
    Draft::of(
        heap,
        counts,
        &[0, 0, 0],
        &[runs(0, 0, 1, 0, 1), runs(0, 1, 2, 99, 10080)],
    )
}

/// The connection of a number in the largest timetable: four connections to a train, from one station to the next.
pub fn large_connection(number: u16) -> Connection {
    let mut c = runs(
        number / 4,
        number % LARGEST.stations,
        (number % LARGEST.stations + 1) % LARGEST.stations,
        number % LARGEST.period,
        number % LARGEST.period + 1,
    );
    c.runs = number % 3 != 0;
    c
}

/// The largest period and counts.
pub const LARGEST: Counts = Counts {
    period: 10080,
    stations: 1024,
    trains: 4096,
    connections: 16384,
};

/// The largest timetable: every count and every number at its limit.
pub fn largest(heap: Global) -> Result<Draft, AllocError> {
    let mut draft = Draft::new(heap, LARGEST)?;
    for _ in 0..LARGEST.stations {
        draft.transfer(1440)?;
    }
    for number in 0..LARGEST.connections {
        draft.connection(large_connection(number))?;
    }
    Ok(draft)
}
