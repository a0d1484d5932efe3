//! A caller that is lent its queues and slices one by one. Its contract is that of `replay`, said of its own parameters, so nothing
//! is lost where they go through the structs.

ghost use Rattle.std.specs.Prelude.{◌≡◌, min, List, map, length, take, drop};
ghost use Rattle.law.specs.Book.{fresh};
ghost use Rattle.replay.specs.Runs.{Step, Run};

use crate::answer::Answer;
use crate::buffers::Buffers;
use crate::order::Order;
use crate::queue_pair::QueuePair;
use crate::running::replay;
use entries::{BoardEntry, LabelEntry};
use queue::Queue;
use timetable::{Label, Leg, Pair, Timetable};

// Nothing calls it. It is no test, since a test takes no timetable or queue of any type, and this way every check proves it.
/// Carries out a list of calls with queues and buffers that come one by one.
pub(crate) fn replay_lent<
    T: Timetable + Drop,
    B: Queue<BoardEntry>,
    L: Queue<LabelEntry>,
    C: Queue<BoardEntry>,
    M: Queue<LabelEntry>,
>(
    timetable: T,
    orders: &[Order],
    first_board: &mut B,
    first_labels: &mut L,
    second_board: &mut C,
    second_labels: &mut M,
    memory: &mut [Label],
    pairs: &mut [Pair],
    legs: &mut [Leg],
    answers: &mut [Answer],
) -> usize
    ensures number { result ≡ min (length orders.now) (length answers.old) }
    ensures later { drop result answers.new ≡ drop result answers.old }
    ensures first_board { B.Queue.room first_board.new ≡ B.Queue.room first_board.old }
    ensures first_labels { L.Queue.room first_labels.new ≡ L.Queue.room first_labels.old }
    ensures second_board { C.Queue.room second_board.new ≡ C.Queue.room second_board.old }
    ensures second_labels { M.Queue.room second_labels.new ≡ M.Queue.room second_labels.old }
    ensures memory { length memory.new ≡ length memory.old }
    ensures pairs { length pairs.new ≡ length pairs.old }
    ensures legs { length legs.new ≡ length legs.old }
    ensures law { (steps : List Step)
        × (map (λ s. s.ordered) steps ≡ take result orders.now)
        × (map (λ s. s.answered) steps ≡ take result answers.new)
        × Run
        (T.Means.meaning timetable)
        (record {
          first = record { board = B.Queue.room first_board.old; labels = L.Queue.room first_labels.old };
          second = record { board = C.Queue.room second_board.old; labels = M.Queue.room second_labels.old };
        })
        fresh
        (record { memory = memory.old; pairs = pairs.old; legs = legs.old })
        steps
        (record { memory = memory.new; pairs = pairs.new; legs = legs.new }) }
{
    let mut first = QueuePair {
        board: first_board,
        labels: first_labels,
    };
    let mut second = QueuePair {
        board: second_board,
        labels: second_labels,
    };
    let mut buffers = Buffers {
        memory,
        pairs,
        legs,
    };
    replay(
        timetable,
        orders,
        &mut first,
        &mut second,
        &mut buffers,
        answers,
    )
}
