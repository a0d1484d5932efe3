ghost use Rattle.std.specs.Prelude.{◌≡◌};
ghost use Rattle.timetable.specs.Counted.{counts_of};

use crate::interface::Timetable;

/// The numbers that a timetable's header holds.
#[derive(Clone, Copy, PartialEq, Eq, Debug)]
pub struct Counts {
    /// the minutes after which all repeats
    pub period: u16,
    pub stations: u16,
    pub trains: u16,
    pub connections: u16,
}

impl Counts {
    /// The numbers of a timetable.
    pub fn of<T: Timetable>(t: &T) -> Counts
        ensures { result ≡ counts_of (T.Means.meaning t.now) }
    {
        Counts {
            period: t.period(),
            stations: t.stations(),
            trains: t.trains(),
            connections: t.connections(),
        }
    }
}
