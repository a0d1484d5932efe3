//! Where the parts of an image lie.

ghost use Rattle.std.specs.Prelude.{◌≡◌, ◌+◌, ◌*◌};
ghost use Rattle.image.specs.Format.{record_place};

/// The bytes of a transfer time.
pub(crate) const TRANSFER_BYTES: usize = 2;

/// The bytes of a record.
pub(crate) const RECORD_BYTES: usize = 12;

/// The byte at which a station's transfer time lies.
pub(crate) fn transfer_place(station: u16) -> usize
    ensures { result ≡ 16 + 2 * station }
{
    16 + TRANSFER_BYTES * usize::from(station)
}

/// The byte at which a record begins, behind the transfer times of so many stations. At the number of connections
/// it is the length of the image.
pub(crate) fn record_place(stations: u16, number: u16) -> usize
    ensures { result ≡ record_place stations number }
{
    16 + TRANSFER_BYTES * usize::from(stations) + RECORD_BYTES * usize::from(number)
}
