//! A whole list of calls.

ghost use Rattle.std.specs.Prelude.{◌≡◌, min, List, map, length, take, drop};
ghost use Rattle.law.specs.Book.{fresh};
ghost use Rattle.replay.specs.Runs.{Step, Run, SameBuffers, SameQueues, held, room_of};

use crate::answer::Answer;
use crate::buffers::Buffers;
use crate::carrying::carry_out;
use crate::order::Order;
use crate::queue_pair::QueuePair;
use entries::{BoardEntry, LabelEntry};
use planner::Planner;
use queue::Queue;
use timetable::Timetable;

/// Carries out a list of calls on a fresh planner over the timetable, with one label memory, and gives an answer for each, as far
/// as there is room for the answers. Answers how many calls were carried out.
///
/// The queues may hold anything, and the label memory and the outputs too. The queues keep their capacities, and the buffers their
/// lengths.
pub fn replay<
    T: Timetable + Drop,
    B: Queue<BoardEntry>,
    L: Queue<LabelEntry>,
    C: Queue<BoardEntry>,
    M: Queue<LabelEntry>,
>(
    timetable: T,
    orders: &[Order],
    first: &mut QueuePair<B, L>,
    second: &mut QueuePair<C, M>,
    buffers: &mut Buffers,
    answers: &mut [Answer],
) -> usize
    ensures number { result ≡ min (length orders.now) (length answers.old) }
    ensures later { drop result answers.new ≡ drop result answers.old }
    ensures first { SameQueues B.Queue.room L.Queue.room first.old first.new }
    ensures second { SameQueues C.Queue.room M.Queue.room second.old second.new }
    ensures buffers { SameBuffers buffers.old buffers.new }
    ensures law { (steps : List Step)
        × (map (λ s. s.ordered) steps ≡ take result orders.now)
        × (map (λ s. s.answered) steps ≡ take result answers.new)
        × Run (T.Means.meaning timetable) (record { first = room_of B.Queue.room L.Queue.room first.old; second = room_of C.Queue.room M.Queue.room second.old }) fresh (held buffers.old) steps (held buffers.new) }
{
    let mut planner = Planner::new(timetable);
    let n = orders.len().min(answers.len());
    // A proof knows nothing of what is written through `answers.iter_mut().zip(..)`, so an answer is written by its index.
    for (i, order) in orders[..n].iter().enumerate() {
        answers[i] = carry_out(&mut planner, order, first, second, buffers);
    }
    n
}
