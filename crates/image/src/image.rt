//! The reader. The struct stands alone here; what it does is in the modules below.

ghost use Rattle.std.specs.Prelude.{◌≡◌, true, is_ok};
ghost use Rattle.timetable.specs.Table.{Lawful};
ghost use Rattle.image.specs.Format.{opened, table_in};
ghost use Rattle.image.specs.Written.{smallest};

mod opening;
mod reading;

// A struct that is copied and borrows cannot have a model: `means`, in `specs/Reader`, says what it means.
/// A timetable read from the bytes of its image, where the caller holds them.
#[derive(Clone, Copy)]
pub struct Image<'a> {
    bytes: &'a [u8],
    ghost sound: { is_ok (opened bytes.now) ≡ true },
    ghost lawful: { Lawful (table_in bytes.now) },
}

impl<'a> Image<'a> {
    /// A reader of the smallest timetable (period 1, one station, no train, no connection), to be filled by `open`.
    pub fn smallest() -> Image<'a>
        ensures { table_in result.bytes.now ≡ smallest }
    {
        Image {
            bytes: b"PTT\0\x01\0\x01\0\x01\0\0\0\0\0\0\0\0\0",
        }
    }
}
