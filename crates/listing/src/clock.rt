ghost use Rattle.std.specs.Prelude.{Some};
ghost use Rattle.listing.specs.Text.{moment_text};

use std::fmt;

/// A minute counted from the start of a period. In a period of one day it is shown as H:MM, with `+1`, `+2`, .. on the
/// days after the first; in any other period it is shown as it is.
#[derive(Clone, Copy)]
pub struct Moment {
    pub minute: u32,
    pub period: u16,
}

impl fmt::Display for Moment {
    ghost output = { λ m. Some (moment_text m.period m.minute) };

    fn fmt<W: fmt::Write>(&self, f: &mut fmt::Formatter<W>) -> fmt::Result {
        let minute = self.minute;
        if self.period != 1440 {
            return write!(f, "{minute}");
        }
        let day = minute / 1440;
        let hour = minute % 1440 / 60;
        let minute = minute % 60;
        if day == 0 {
            write!(f, "{hour}:{minute:02}")
        } else {
            write!(f, "{hour}:{minute:02} +{day}")
        }
    }
}
