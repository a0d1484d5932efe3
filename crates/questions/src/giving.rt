//! Whether one label gives another.

ghost use Rattle.std.specs.Prelude.{◌≡◌, ℕ, ◌<◌, ◌≤◌, MatchBool, MatchOption};
ghost use Rattle.timetable.specs.Table.{connections};
ghost use Rattle.timetable.specs.Labels.{Gives, connection_place};
ghost use Rattle.questions.specs.Giving.{NoRide, NoStay, NoChange};

use timetable::{ConnectionNo, Means, Timetable, connection_at, transfer_at, wait};

/// A place with its minute.
#[derive(Clone, Copy, PartialEq, Eq)]
pub struct Stop {
    pub place: usize,
    pub minute: u32,
}

/// The connection of a place, if it is a connection's.
pub fn connection_of<T: Timetable>(t: &T, place: usize) -> Option<ConnectionNo>
    ensures { MatchOption result ((c : ℕ) → c < connections (T.Means.meaning t.now) → place ≡ connection_place (T.Means.meaning t.now) c → ⊥) (λ c. (c.0 < connections (T.Means.meaning t.now)) × (place ≡ connection_place (T.Means.meaning t.now) c.0)) }
{
    let number = place.checked_sub(usize::from(t.stations()))?;
    let number = u16::try_from(number).ok()?;
    (number < t.connections()).then_some(ConnectionNo(number))
}

/// Two places with their minutes, the first no later than the second.
#[derive(Clone, Copy)]
struct Stops {
    from: Stop,
    to: Stop,
    ghost in_order: { from.minute ≤ to.minute },
    ghost small: { to.minute ≤ 400000000 },
}

impl Stops {
    /// Whether the ride of the connection at `from` arrives at `to`.
    fn rides<T: Timetable>(&self, t: &T) -> bool
        ensures { MatchBool result (Gives (T.Means.meaning t.now) self.now.from.place self.now.from.minute self.now.to.place self.now.to.minute) (NoRide (T.Means.meaning t.now) self.now.from.place self.now.from.minute self.now.to.place self.now.to.minute) }
    {
        let Some(number) = connection_of(t, self.from.place) else {
            return false;
        };
        let connection = connection_at(t, number);
        self.to.place == usize::from(connection.end.0)
            && self.to.minute == self.from.minute + u32::from(connection.ride)
    }

    /// Whether the train of the connection at `from` stands and departs as `to`.
    fn stays<T: Timetable>(&self, t: &T) -> bool
        ensures { MatchBool result (Gives (T.Means.meaning t.now) self.now.from.place self.now.from.minute self.now.to.place self.now.to.minute) (NoStay (T.Means.meaning t.now) self.now.from.place self.now.from.minute self.now.to.place self.now.to.minute) }
    {
        let Some(number) = connection_of(t, self.from.place) else {
            return false;
        };
        let Some(next_number) = connection_of(t, self.to.place) else {
            return false;
        };
        let connection = connection_at(t, number);
        let next = connection_at(t, next_number);
        // by their numbers, since one is the other's plus one
        if next_number.0 != number.0 + 1 || next.train != connection.train || !next.runs {
            return false;
        }
        let ride = u32::from(connection.ride);
        let stand = wait(t, u32::from(connection.departure) + ride, next.departure);
        self.to.minute == self.from.minute + ride + stand
    }

    /// Whether one who is at the station `from` and changes departs as `to`.
    fn changes<T: Timetable>(&self, t: &T) -> bool
        ensures { MatchBool result (Gives (T.Means.meaning t.now) self.now.from.place self.now.from.minute self.now.to.place self.now.to.minute) (NoChange (T.Means.meaning t.now) self.now.from.place self.now.from.minute self.now.to.place self.now.to.minute) }
    {
        let Some(number) = connection_of(t, self.to.place) else {
            return false;
        };
        let connection = connection_at(t, number);
        let ready = self.from.minute + u32::from(transfer_at(t, connection.start));
        self.from.place == usize::from(connection.start.0)
            && connection.runs
            && self.to.minute == ready + wait(t, ready, connection.departure)
    }
}

/// Whether the label `from` gives the label `to`: by a ride's arrival, a stay or a change.
// The search makes an entry of each, and this crate compares minutes: what they share is one sum each, so functions for both
// would be no plainer.
// A function for the change would be public, too, and need a `requires`.
pub(crate) fn gives<T: Timetable>(t: &T, from: Stop, to: Stop) -> bool
    requires { to.minute ≤ 400000000 }
    ensures { MatchBool result (Gives (T.Means.meaning t.now) from.place from.minute to.place to.minute) (Gives (T.Means.meaning t.now) from.place from.minute to.place to.minute → ⊥) }
{
    if to.minute < from.minute {
        return false;
    }
    let stops = Stops { from, to };
    stops.rides(t) || stops.stays(t) || stops.changes(t)
}
