//! Which trains does one take?

ghost use Rattle.std.specs.Prelude.{◌≡◌, ◌+◌, ◌<◌, ◌≤◌, true, false, List, ◌++◌, map, length, drop, if◌then◌else◌};
ghost use Rattle.timetable.specs.Labels.{ranks, places};
ghost use Rattle.timetable.specs.Rows.{Rows};
ghost use Rattle.journeys.specs.Search.{Entry};
ghost use Rattle.journeys.specs.Trace.{legs_of};
ghost use Rattle.answers.specs.Backward.{taken};
ghost use Rattle.answers.specs.Chains.{RowChain, leg_later};
ghost use Rattle.answers.specs.Promises.{Journeyed};
ghost use Rattle.answers.specs.Subject.{JourneyTold};
ghost use Rattle.answers.specs.Walks.{TakenIn, Room};

use crate::asking::Question;
use crate::chain::Origins;
use crate::giving::connection_of;
use crate::rows::origin_of;
use crate::standing::Standing;
use refusals::{Refusal, enough};
use timetable::{ConnectionNo, Label, Leg, Means, Station, Timetable, connection_at};

/// Takes a ride in front of the legs from index `at` on: aboard, it opens the first of them, else it is a leg of its own.
/// Answers the index of the first leg.
// The legs are lent, so an index stands beside them, and `aboard` tells only whether the leg there is still open.
fn take_ride<T: Timetable>(
    t: &T,
    aboard: bool,
    number: ConnectionNo,
    departure: u32,
    at: usize,
    out: &mut [Leg],
) -> usize
    requires departure { departure ≤ 400010080 }
    requires inside { at ≤ length out.old }
    requires behind { aboard ≡ true → at < length out.old }
    requires before { aboard ≡ false → 1 ≤ at }
    ensures moved { result + (if aboard then 0 else 1) ≡ at }
    ensures held { drop result out.new ≡ taken (T.Means.meaning t.now) aboard number.0 departure (drop at out.old) }
{
    let connection = connection_at(t, number);
    if aboard {
        out[at] = Leg {
            train: connection.train,
            first: number,
            departure,
            ..out[at]
        };
        return at;
    }
    let arrival = departure + u32::from(connection.ride);
    out[at - 1] = Leg {
        train: connection.train,
        first: number,
        last: number,
        departure,
        arrival,
    };
    at - 1
}

/// Takes the entry of a place, if it is a connection.
fn take_entry<T: Timetable>(
    t: &T,
    aboard: bool,
    place: usize,
    departure: u32,
    at: usize,
    out: &mut [Leg],
) -> usize
    requires departure { departure ≤ 400010080 }
    requires place { place < places (T.Means.meaning t.now) }
    requires room { Room (T.Means.meaning t.now) aboard place at out.old }
    ensures { TakenIn (T.Means.meaning t.now) aboard place departure at out.old result out.new }
{
    match connection_of(t, place) {
        Some(number) => take_ride(t, aboard, number, departure, at, out),
        None => at,
    }
}

impl<T: Timetable> Origins<'_, T> {
    /// Writes the legs from the last to the first, each later by so many minutes. That the origins give their labels was checked
    /// when the legs were counted.
    fn write_legs(&self, later: u32, legs: usize, out: &mut [Leg])
        requires later { later ≤ 10080 }
        requires chain { (es : List Entry) × RowChain (T.Means.meaning self.now.timetable.now) self.now.rows.memory.now self.now.row self.now.rows.view.target es × (legs ≡ length (legs_of (T.Means.meaning self.now.timetable.now) es)) }
        requires fits { legs ≤ length out.old }
        ensures { (es : List Entry) × RowChain (T.Means.meaning self.now.timetable.now) self.now.rows.memory.now self.now.row self.now.rows.view.target es × (out.new ≡ map (leg_later later) (legs_of (T.Means.meaning self.now.timetable.now) es) ++ drop legs out.old) }
    {
        let stations = usize::from(self.timetable.stations());
        let mut place = self.rows.view.target;
        let mut aboard = false;
        // Only some of the entries begin a leg, so the index of the first leg is counted down by hand.
        let mut at = legs;
        'walk: loop {
            let label = self.rows.entry(self.row, place);
            at = take_entry(self.timetable, aboard, place, label.minute + later, at, out);
            let Some(origin) = origin_of(label) else {
                return;
            };
            aboard = stations <= place;
            place = origin;
        }
    }
}

impl<T: Timetable> Question<'_, T> {
    /// Checks all that is asked, and writes the legs if there is room for them.
    fn journey(&self, minute: u32, out: &mut [Leg]) -> Result<usize, Refusal>
        ensures { Journeyed (T.Means.meaning self.now.timetable.now) self.now.standing.source.0 self.now.standing.rows self.now.memory.now self.now.target.0 minute out.old result out.new }
    {
        let found = self.find(minute)?;
        let origins = Origins {
            timetable: self.timetable,
            rows: found.rows,
            row: found.hit.row,
        };
        let legs = origins.count_legs()?;
        enough(out.len(), legs, Refusal::ShortAnswer(legs))?;
        origins.write_legs(found.later(), legs, out);
        Ok(legs)
    }
}

/// Writes the legs of an itinerary that has the pair that arrive answers, in the order in which they are taken, and answers
/// their number; later entries stay.
/// Refused: `NoTarget`, `TargetIsSource`, `MinuteLimit`, `ShortRows`, `ForeignRows`, `Unreachable`, `ShortAnswer`, in this
/// order, and `ForeignRows` past `Unreachable` where the origins of the pair's row do not lead back to its departure and
/// connection; the output is then as it was.
/// It compares every row with every other, at most, and follows the origins of one row twice.
pub fn journey<T: Timetable>(
    t: &T,
    standing: Standing,
    memory: &[Label],
    target: Station,
    minute: u32,
    out: &mut [Leg],
) -> Result<usize, Refusal>
    ensures answer { Journeyed (T.Means.meaning t.now) standing.source.0 standing.rows memory.now target.0 minute out.old result out.new }
    ensures searched { Rows (T.Means.meaning t.now) standing.source.0 memory.now → standing.rows ≡ ranks (T.Means.meaning t.now) standing.source.0 → JourneyTold (T.Means.meaning t.now) standing.source.0 memory.now target.0 minute out.old result out.new }
{
    let question = Question {
        timetable: t,
        standing,
        memory,
        target,
    };
    question.journey(minute, out)
}
