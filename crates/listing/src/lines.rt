//! The lines of a timetable's listing.

ghost use Rattle.std.specs.Prelude.{◌≡◌, ℕ, ◌<◌, List, IfOk, string_bytes};
ghost use Rattle.listing.specs.Text.{counts_line, ride_text, note, station_line, station_lines, train_line, connection_line, begins_train, train_lines, lines_below, listing_text};

use crate::clock::Moment;
use std::alloc::{AllocError, Global};
use timetable::{Connection, ConnectionNo, Counts, Station, Timetable, connection_at, transfer_at};

/// The period and the counts, in one line with no line's end.
pub fn counts<T: Timetable>(heap: Global, t: &T) -> Result<String, AllocError>
    ensures { IfOk result (λ s. string_bytes s ≡ counts_line (T.Means.meaning t.now)) }
{
    let Counts {
        period,
        stations,
        trains,
        connections,
    } = Counts::of(t);
    format!(in heap;
        "period {period} min, {stations} stations, {trains} trains, {connections} connections"
    )
}

// The lines are texts and not types with `Display`: `format!` proves them at once, and they are put one after another.

/// A station with its transfer time.
fn station_text(heap: Global, station: u16, minutes: u16) -> Result<String, AllocError>
    ensures { IfOk result (λ s. string_bytes s ≡ station_line station minutes) }
{
    format!(in heap; "station {station}: transfer time {minutes} min\n")
}

/// A train.
fn train_text(heap: Global, train: u16) -> Result<String, AllocError>
    ensures { IfOk result (λ s. string_bytes s ≡ train_line train) }
{
    format!(in heap; "train {train}\n")
}

/// A ride: departure, arrival and length.
fn ride_text(heap: Global, period: u16, departure: u16, ride: u16) -> Result<String, AllocError>
    ensures { IfOk result (λ s. string_bytes s ≡ ride_text period departure ride) }
{
    let start = Moment {
        minute: u32::from(departure),
        period,
    };
    let end = Moment {
        minute: u32::from(departure) + u32::from(ride),
        period,
    };
    format!(in heap; "{start} → {end} ({ride} min)")
}

/// What is said of a connection that does not run.
fn note_text(runs: bool) -> &'static str
    ensures { result.now ≡ note runs }
{
    if runs { "" } else { ", does not run" }
}

/// A connection.
fn connection_text(
    heap: Global,
    period: u16,
    number: u16,
    c: Connection,
) -> Result<String, AllocError>
    ensures { IfOk result (λ s. string_bytes s ≡ connection_line period number c) }
{
    let ride = ride_text(heap, period, c.departure, c.ride)?;
    let start = c.start.0;
    let end = c.end.0;
    let note = note_text(c.runs);
    format!(in heap; "  connection {number}: {ride}, station {start} to station {end}{note}\n")
}

/// The line of a station.
fn station_of<T: Timetable>(heap: Global, t: &T, station: u16) -> Result<String, AllocError>
    ensures { IfOk result (λ s. string_bytes s ≡ station_lines (T.Means.meaning t.now) station) }
{
    station_text(heap, station, transfer_at(t, Station(station)))
}

/// Whether a connection is the first of its train.
fn begins_train<T: Timetable>(t: &T, number: u16) -> bool
    ensures { result ≡ begins_train (T.Means.meaning t.now) number }
{
    if number == 0 {
        return true;
    }
    let before = connection_at(t, ConnectionNo(number - 1));
    let c = connection_at(t, ConnectionNo(number));
    before.train != c.train
}

/// The line of a connection, below that of its train if it is the first.
fn connection_lines<T: Timetable>(heap: Global, t: &T, number: u16) -> Result<String, AllocError>
    ensures { IfOk result (λ s. string_bytes s ≡ train_lines (T.Means.meaning t.now) number) }
{
    let c = connection_at(t, ConnectionNo(number));
    let line = connection_text(heap, t.period(), number, c)?;
    if !begins_train(t, number) {
        return Ok(line);
    }
    let mut text = train_text(heap, c.train.0)?;
    text.push_str(line.as_str())?;
    Ok(text)
}

/// The lines of the numbers below n, one after another.
fn lines_below<F: Fn(u16) -> Result<String, AllocError>>(
    heap: Global,
    n: u16,
    lines: F,
) -> Result<String, AllocError>
    requires { F.IsAlwaysCallable lines }
    ensures { (f : ℕ → List ℕ) → ((i : ℕ) (r : _) → i < n → F.post lines i r → IfOk r (λ s. string_bytes s ≡ f i)) → IfOk result (λ s. string_bytes s ≡ lines_below f n) }
{
    let mut text = String::new(heap);
    // Over numbers: there is no slice to go over.
    for i in 0..n {
        text.push_str(lines(i)?.as_str())?;
    }
    Ok(text)
}

/// The stations with their transfer times, then the trains that have connections with these; each line has its end.
pub fn listing<T: Timetable>(heap: Global, t: &T) -> Result<String, AllocError>
    ensures { IfOk result (λ s. string_bytes s ≡ listing_text (T.Means.meaning t.now)) }
{
    let station = |v| -> Result<String, AllocError>
        ensures { IfOk result (λ s. string_bytes s ≡ station_lines (T.Means.meaning t.entry.now) v) }
    { station_of(heap, t, v) };
    let connection = |c| -> Result<String, AllocError>
        ensures { IfOk result (λ s. string_bytes s ≡ train_lines (T.Means.meaning t.entry.now) c) }
    { connection_lines(heap, t, c) };
    let mut text = lines_below(heap, t.stations(), station)?;
    let trains = lines_below(heap, t.connections(), connection)?;
    text.push_str(trains.as_str())?;
    Ok(text)
}
