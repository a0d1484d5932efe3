//! The command that searches: what is worth taking from one station to every other.

use crate::command::Make;
use crate::failure::{Failure, of_file};
use crate::files::{contents, opened};
use crate::lending::Sizes;
use buckets::Buckets;
use entries::{BoardEntry, LabelEntry};
use heap::Heap;
use listing::Moment;
use questions::{Standing, profile};
use queue::Queue;
use refusals::Refusal;
use search::{Found, departures, search};
use std::alloc::{AllocError, Global};
use timetable::{Label, Pair, Station, Timetable};

/// A search from a source: what it found, and the memory with its rows.
#[derive(Drop)]
struct Rows {
    source: Station,
    found: Found,
    memory: Vec<Label>,
}

impl Rows {
    fn standing(&self) -> Standing {
        Standing {
            source: self.source,
            rows: self.found.departures,
        }
    }
}

/// A search with these queues, and with as long a memory as it needs.
// The memory comes after the cells of the queues, which as a rule need more: where they cannot be had, none is taken and filled.
fn found_with<T: Timetable, B: Queue<BoardEntry>, L: Queue<LabelEntry>>(
    heap: Global,
    t: &T,
    source: Station,
    sizes: Sizes,
    board: &mut B,
    labels: &mut L,
) -> Result<(Result<Found, Refusal>, Vec<Label>), AllocError> {
    let mut memory = vec![in heap; Label::default(); sizes.memory]?;
    let outcome = search(t, source, board, labels, memory.as_mut_slice());
    Ok((outcome, memory))
}

/// A search with as much as it needs. Where it is refused, the failure names the file.
// Each make has an arm: a queue borrows its cells, so a trait for makes would need an associated type with a lifetime parameter.
fn searched<T: Timetable>(
    heap: Global,
    path: &str,
    t: &T,
    source: Station,
    make: Make,
) -> Result<Rows, Failure> {
    let sizes = Sizes::enough_for(t, departures(t, source));
    let (outcome, memory) = match make {
        Make::Heap => {
            let (mut board, mut labels) = sizes.heap_cells(heap)?;
            let mut board = Heap::new(board.as_mut_slice());
            let mut labels = Heap::new(labels.as_mut_slice());
            found_with(heap, t, source, sizes, &mut board, &mut labels)?
        }
        Make::Buckets => {
            let (mut board, mut labels) = sizes.bucket_cells(heap)?;
            let mut board = Buckets::new(board.as_mut_slice());
            let mut labels = Buckets::new(labels.as_mut_slice());
            found_with(heap, t, source, sizes, &mut board, &mut labels)?
        }
    };
    let found = of_file(heap, path, outcome)?;
    Ok(Rows {
        source,
        found,
        memory,
    })
}

/// Prints the departures worth taking to one station.
fn print_target<T: Timetable>(
    rt: &HostRuntime,
    t: &T,
    rows: &Rows,
    target: Station,
    out: &mut [Pair],
) -> Result<(), Failure> {
    let Station(number) = target;
    let memory = rows.memory.as_slice();
    let Ok(count) = profile(t, rows.standing(), memory, target, out) else {
        println!(rt; "station {number}: not reached")?;
        return Ok(());
    };
    println!(rt; "station {number}:")?;
    let period = t.period();
    let moment = |minute| Moment { minute, period };
    for pair in out.iter().take(count) {
        let Pair { departure, arrival } = *pair;
        let (start, end) = (moment(departure), moment(arrival));
        let length = arrival.saturating_sub(departure);
        println!(rt; "  {start} → {end} ({length} min)")?;
    }
    Ok(())
}

/// Prints what was found, and what is worth taking to every other station.
fn print<T: Timetable>(rt: &HostRuntime, t: &T, rows: &Rows) -> Result<(), Failure> {
    let Found { departures, labels } = rows.found;
    println!(rt; "{departures} first departures, {labels} leading labels")?;
    let mut out = vec![in rt.alloc(); Pair::default(); departures as usize]?;
    let stations = (0..t.stations()).map(Station);
    for target in stations.filter(|station| *station != rows.source) {
        print_target(rt, t, rows, target, out.as_mut_slice())?;
    }
    Ok(())
}

/// Opens an image, searches it from a station, and prints what is worth taking.
pub(crate) fn run(
    rt: &HostRuntime,
    path: &str,
    source: Station,
    make: Make,
) -> Result<(), Failure> {
    let bytes = contents(rt, path)?;
    let image = opened(rt.alloc(), path, bytes.as_slice())?;
    let rows = searched(rt.alloc(), path, &image, source, make)?;
    print(rt, &image, &rows)
}
