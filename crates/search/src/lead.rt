//! What a label leads to.

ghost use Rattle.std.specs.Prelude.{◌≡◌, ◌+◌, ◌<◌, map, length};
ghost use Rattle.timetable.specs.Table.{connections};
ghost use Rattle.timetable.specs.Labels.{places, connection_place};
ghost use Rattle.entries.specs.Kinds.{label_ahead};
ghost use Rattle.journeys.specs.Queued.{ride_by, stay_by, change_by, leads_by, leads};
ghost use Rattle.turns.specs.Seen.{seen, waiting};
ghost use Rattle.turns.specs.Puts.{Ready, Grown, those};

use crate::puts::add_some;
use entries::{LabelEntry, Place};
use queue::Queue;
use timetable::{ConnectionNo, Means, Timetable, connection_at, transfer_at, wait};

/// The place of a connection: behind the stations.
pub fn place_of<T: Timetable>(t: &T, number: ConnectionNo) -> Place
    ensures { result.0 ≡ connection_place (T.Means.meaning t.now) number.0 }
{
    Place(u32::from(t.stations()) + u32::from(number.0))
}

/// A label, and the timetable over which it leads on. Its minute leaves room in 32 bits for what it leads to.
#[derive(Drop)]
pub struct Leading<'t, T> {
    pub t: &'t T,
    pub label: LabelEntry,
    ghost small: { label.minute < 400000000 },
}

impl<T: Timetable> Leading<'_, T> {
    /// The entry of a place that the label gives a minute.
    fn entry(&self, minute: u32, place: Place) -> LabelEntry
        ensures { result ≡ record { minute = minute; rank = self.now.label.rank; place = place; origin = self.now.label.place } }
    {
        LabelEntry {
            minute,
            rank: self.label.rank,
            place,
            origin: self.label.place,
        }
    }

    // This and the next two return early: a closure after `bool::then` would hold the rest of the function.

    /// The arrival of the ride, if this is a label of the connection.
    fn ride(&self, number: ConnectionNo) -> Option<LabelEntry>
        ensures { those result ≡ map waiting (ride_by (T.Means.meaning self.now.t.now) (seen self.now.label) number.0) }
    {
        if self.label.place != place_of(self.t, number) {
            return None;
        }
        let connection = connection_at(self.t, number);
        Some(self.entry(
            self.label.minute + u32::from(connection.ride),
            Place(u32::from(connection.end.0)),
        ))
    }

    /// The stay aboard, if this is a label of the connection and its train goes on. It costs no transfer time.
    fn stay(&self, number: ConnectionNo) -> Option<LabelEntry>
        requires { number.0 < connections (T.Means.meaning self.now.t.now) }
        ensures { those result ≡ map waiting (stay_by (T.Means.meaning self.now.t.now) (seen self.now.label) number.0) }
    {
        if self.label.place != place_of(self.t, number) {
            return None;
        }
        let after = ConnectionNo(number.0 + 1);
        let connection = connection_at(self.t, number);
        let next = connection_at(self.t, after);
        if !next.runs || connection.train != next.train {
            return None;
        }
        let stand = wait(
            self.t,
            u32::from(connection.departure) + u32::from(connection.ride),
            next.departure,
        );
        Some(self.entry(
            self.label.minute + u32::from(connection.ride) + stand,
            place_of(self.t, after),
        ))
    }

    /// The change to the connection, if this is a label of the station where it starts.
    fn change(&self, number: ConnectionNo) -> Option<LabelEntry>
        ensures { those result ≡ map waiting (change_by (T.Means.meaning self.now.t.now) (seen self.now.label) number.0) }
    {
        let connection = connection_at(self.t, number);
        if !connection.runs || self.label.place != Place(u32::from(connection.start.0)) {
            return None;
        }
        let ready = self.label.minute + u32::from(transfer_at(self.t, connection.start));
        Some(self.entry(
            ready + wait(self.t, ready, connection.departure),
            place_of(self.t, number),
        ))
    }

    /// Puts what the label leads to by one connection.
    fn lead_by<L: Queue<LabelEntry>>(&self, number: ConnectionNo, labels: &mut L)
        requires known { number.0 < connections (T.Means.meaning self.now.t.now) }
        requires ready { Ready L.Queue (length (leads_by (T.Means.meaning self.now.t.now) (seen self.now.label) number.0)) labels.old }
        ensures { Grown L.Queue label_ahead (map waiting (leads_by (T.Means.meaning self.now.t.now) (seen self.now.label) number.0)) labels.old labels.new }
    {
        add_some(labels, self.change(number));
        add_some(labels, self.stay(number));
        add_some(labels, self.ride(number));
    }

    /// The same by every connection.
    fn lead_all<L: Queue<LabelEntry>>(&self, labels: &mut L)
        requires { Ready L.Queue (length (leads (T.Means.meaning self.now.t.now) (seen self.now.label))) labels.old }
        ensures { Grown L.Queue label_ahead (map waiting (leads (T.Means.meaning self.now.t.now) (seen self.now.label))) labels.old labels.new }
    {
        // A timetable answers by number: there is no slice to go over.
        for c in 0..self.t.connections() {
            self.lead_by(ConnectionNo(c), labels);
        }
    }

    /// Puts one entry for each place that the label leads to: a station leads to the connections that start there, a
    /// connection to its arrival and its stay.
    pub(crate) fn lead<L: Queue<LabelEntry>>(&self, labels: &mut L)
        requires place { self.now.label.place.0 < places (T.Means.meaning self.now.t.now) }
        requires ready { Ready L.Queue (length (leads (T.Means.meaning self.now.t.now) (seen self.now.label))) labels.old }
        ensures { Grown L.Queue label_ahead (map waiting (leads (T.Means.meaning self.now.t.now) (seen self.now.label))) labels.old labels.new }
    {
        // `questions` takes a place apart likewise: each needs one line, so a function for both would be no shorter.
        match self.label.place.0.checked_sub(u32::from(self.t.stations())) {
            None => self.lead_all(labels),
            Some(number) => self.lead_by(ConnectionNo(number as u16), labels),
        }
    }
}
