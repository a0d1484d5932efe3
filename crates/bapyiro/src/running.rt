//! `run`: a script carried out on one planner and one label memory.

use crate::command::Make;
use crate::failure::Failure;
use crate::files::{contents, opened, text_of};
use crate::lending::Sizes;
use crate::printing::print_answers;
use crate::script::{Entry, read};
use buckets::Buckets;
use heap::Heap;
use replay::{Answer, Buffers, Call, Order, QueuePair, Queues, replay};
use search::departures;
use std::alloc::{AllocError, Global};
use timetable::{Label, Leg, Pair, Timetable};

impl From<Make> for Queues {
    fn from(make: Make) -> Queues {
        match make {
            Make::Heap => Queues::First,
            Make::Buckets => Queues::Second,
        }
    }
}

// A call is data, so what it needs is matched here and below.
/// The most first departures that a search of a script can have with one make of queue. A report never has a connection run,
/// so those of the timetable without reports are counted.
fn most_departures<T: Timetable>(t: &T, script: &[Entry], make: Make) -> usize {
    script
        .iter()
        .filter(|entry| entry.settings.make == make)
        .map(|entry| match entry.call {
            Call::Search(source) => departures(t, source),
            _ => 0,
        })
        .max()
        .unwrap_or(0)
}

/// As much as any call of a script can need.
#[derive(Clone, Copy)]
struct Needs {
    /// for a search with heaps
    heaps: Sizes,
    /// for a search with bucket queues
    buckets: Sizes,
    /// the entries that a journey can write
    legs: usize,
}

impl Needs {
    fn of<T: Timetable>(t: &T, script: &[Entry]) -> Needs {
        Needs {
            heaps: Sizes::enough_for(t, most_departures(t, script, Make::Heap)),
            buckets: Sizes::enough_for(t, most_departures(t, script, Make::Buckets)),
            legs: usize::from(t.connections()),
        }
    }

    /// The entries that a profile can write.
    fn pairs(&self) -> usize {
        self.heaps.board.max(self.buckets.board)
    }

    fn memory(&self) -> usize {
        self.heaps.memory.max(self.buckets.memory)
    }
}

/// How many entries of output a call is lent.
fn room(entry: &Entry, needs: &Needs) -> usize {
    let needed = match entry.call {
        Call::Profile(_) => needs.pairs(),
        Call::Journey(_, _) => needs.legs,
        _ => 0,
    };
    entry.settings.room.min(needed)
}

/// The orders of a script, with their parts of the outputs one behind the other.
fn orders(heap: Global, script: &[Entry], needs: &Needs) -> Result<Vec<Order>, AllocError> {
    let mut orders = Vec::new(heap);
    let mut from = 0;
    for entry in script {
        let settings = entry.settings;
        let to = room(entry, needs).saturating_add(from);
        orders.push(Order {
            call: entry.call,
            queues: settings.make.into(),
            limits: settings.limits,
            memory: settings.memory,
            from,
            to,
        })?;
        from = to;
    }
    Ok(orders)
}

/// What a run gave. `replay` takes the orders and gives their answers as two slices, so they stand side by side here, too.
#[derive(Drop)]
pub struct Carried {
    pub orders: Vec<Order>,
    pub answers: Vec<Answer>,
    pub pairs: Vec<Pair>,
    pub legs: Vec<Leg>,
}

/// Carries a script out over a timetable, on a fresh planner.
fn carried_out<T: Timetable + Drop>(
    heap: Global,
    t: T,
    script: &[Entry],
) -> Result<Carried, AllocError> {
    let needs = Needs::of(&t, script);
    let orders = orders(heap, script, &needs)?;
    let room = orders.last().map_or(0, |order| order.to);
    let mut memory = vec![in heap; Label::default(); needs.memory()]?;
    let mut pairs = vec![in heap; Pair::default(); room]?;
    let mut legs = vec![in heap; Leg::default(); room]?;
    let mut answers = vec![in heap; Answer::Noted(Ok(())); orders.len()]?;
    let (mut first_board, mut first_labels) = needs.heaps.heap_cells(heap)?;
    let (mut second_board, mut second_labels) = needs.buckets.bucket_cells(heap)?;
    let mut first_board = Heap::new(first_board.as_mut_slice());
    let mut first_labels = Heap::new(first_labels.as_mut_slice());
    let mut second_board = Buckets::new(second_board.as_mut_slice());
    let mut second_labels = Buckets::new(second_labels.as_mut_slice());
    let mut heaps = QueuePair {
        board: &mut first_board,
        labels: &mut first_labels,
    };
    let mut bucket_queues = QueuePair {
        board: &mut second_board,
        labels: &mut second_labels,
    };
    let mut buffers = Buffers {
        memory: memory.as_mut_slice(),
        pairs: pairs.as_mut_slice(),
        legs: legs.as_mut_slice(),
    };
    let _ = replay(
        t,
        orders.as_slice(),
        &mut heaps,
        &mut bucket_queues,
        &mut buffers,
        answers.as_mut_slice(),
    );
    Ok(Carried {
        orders,
        answers,
        pairs,
        legs,
    })
}

/// Carries a script out over an image, and prints an answer for each call.
pub(crate) fn run(rt: &HostRuntime, path: &str, script_path: &str) -> Result<(), Failure> {
    let heap = rt.alloc();
    let bytes = contents(rt, path)?;
    let text = text_of(rt, script_path)?;
    let script = read(heap, script_path, text.as_str())?;
    let image = opened(heap, path, bytes.as_slice())?;
    let carried = carried_out(heap, image, script.as_slice())?;
    print_answers(rt, &carried)
}
