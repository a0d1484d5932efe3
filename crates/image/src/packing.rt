//! The bytes of the parts of an image.

ghost use Rattle.std.specs.Prelude.{◌≡◌};
ghost use Rattle.std.specs.List.{flat_map};
ghost use Rattle.image.specs.Written.{number_bytes, record_bytes, header_with};

use timetable::{Connection, Counts};

/// The bytes of a number, the low one first.
pub fn number_bytes(n: u16) -> [u8; 2]
    ensures { result ≡ number_bytes n }
{
    n.to_le_bytes()
}

/// The bytes of six numbers, one after another.
fn six_numbers(numbers: [u16; 6]) -> [u8; 12]
    ensures { result ≡ flat_map number_bytes numbers }
{
    let [[a, b], [c, d], [e, f], [g, h], [i, j], [k, l]] = numbers.map(number_bytes);
    [a, b, c, d, e, f, g, h, i, j, k, l]
}

/// The bytes of a header with these numbers.
pub fn header_bytes(counts: Counts) -> [u8; 16]
    ensures { result ≡ header_with counts }
{
    let mut bytes = *b"PTT\0\0\0\0\0\0\0\0\0\0\0\0\0";
    bytes[4..].copy_from_slice(&six_numbers([
        1,
        counts.period,
        counts.stations,
        counts.trains,
        counts.connections,
        0,
    ]));
    bytes
}

/// The bytes of a connection's record.
pub fn record_bytes(c: Connection) -> [u8; 12]
    ensures { result ≡ record_bytes c }
{
    six_numbers([
        c.train.0,
        c.start.0,
        c.end.0,
        c.departure,
        c.ride,
        u16::from(c.runs),
    ])
}
