//! One call of a list.

ghost use Rattle.std.specs.Prelude.{◌≡◌, min};
ghost use Rattle.replay.specs.Runs.{StepLaw, OrderLaw, SameBuffers, SameQueues, held, room_in, room_of};

use crate::answer::Answer;
use crate::buffers::Buffers;
use crate::call::Call;
use crate::order::{Order, Queues};
use crate::queue_pair::QueuePair;
use entries::{BoardEntry, LabelEntry};
use planner::Planner;
use queue::Queue;
use search::Limits;
use timetable::{Label, Leg, Pair, Timetable};

// The buffers come one by one, since the borrow checker does not cover a struct of parts of several fields that are lent.
/// Carries out one call.
fn step<T: Timetable, B: Queue<BoardEntry>, L: Queue<LabelEntry>>(
    planner: &mut Planner<T>,
    call: Call,
    limits: Limits,
    queues: &mut QueuePair<B, L>,
    memory: &mut [Label],
    pairs: &mut [Pair],
    legs: &mut [Leg],
) -> Answer
    ensures below { planner.new.notices.below ≡ planner.old.notices.below }
    ensures queues { SameQueues B.Queue.room L.Queue.room queues.old queues.new }
    ensures law { StepLaw T.Means.meaning (min limits.board (B.Queue.room queues.old.board.now)) (min limits.labels (L.Queue.room queues.old.labels.now)) planner.old call result (record { memory = memory.old; pairs = pairs.old; legs = legs.old }) planner.new (record { memory = memory.new; pairs = pairs.new; legs = legs.new }) }
{
    // A call is data, which scripts name and answers are told by, so it is matched here and is no closure.
    match call {
        Call::Cancel(train) => Answer::Noted(planner.cancel(train)),
        Call::Late(train, delay) => Answer::Noted(planner.late(train, delay)),
        Call::Lift(train) => Answer::Noted(planner.lift(train)),
        Call::Search(source) => Answer::Searched(planner.search_within(
            source,
            limits,
            queues.board,
            queues.labels,
            memory,
        )),
        Call::Arrive(target, minute) => Answer::Arrived(planner.arrive(memory, target, minute)),
        Call::Profile(target) => Answer::Profiled(planner.profile(memory, target, pairs)),
        Call::Journey(target, minute) => Answer::Travelled(planner.journey(
            memory, target, minute, legs,
        )),
    }
}

/// Carries out one call with what its order lends it of these queues and buffers.
fn lend<T: Timetable, B: Queue<BoardEntry>, L: Queue<LabelEntry>>(
    planner: &mut Planner<T>,
    order: &Order,
    queues: &mut QueuePair<B, L>,
    buffers: &mut Buffers,
) -> Answer
    ensures below { planner.new.notices.below ≡ planner.old.notices.below }
    ensures queues { SameQueues B.Queue.room L.Queue.room queues.old queues.new }
    ensures buffers { SameBuffers buffers.old buffers.new }
    ensures law { OrderLaw T.Means.meaning (room_of B.Queue.room L.Queue.room queues.old) planner.old order.now result (held buffers.old) planner.new (held buffers.new) }
{
    let front = order.memory.min(buffers.memory.len());
    let pairs = order.part(buffers.pairs.len());
    let legs = order.part(buffers.legs.len());
    step(
        planner,
        order.call,
        order.limits,
        queues,
        &mut buffers.memory[..front],
        &mut buffers.pairs[pairs],
        &mut buffers.legs[legs],
    )
}

/// Carries out one call with the queues that its order names.
pub fn carry_out<
    T: Timetable,
    B: Queue<BoardEntry>,
    L: Queue<LabelEntry>,
    C: Queue<BoardEntry>,
    M: Queue<LabelEntry>,
>(
    planner: &mut Planner<T>,
    order: &Order,
    first: &mut QueuePair<B, L>,
    second: &mut QueuePair<C, M>,
    buffers: &mut Buffers,
) -> Answer
    ensures below { planner.new.notices.below ≡ planner.old.notices.below }
    ensures first { SameQueues B.Queue.room L.Queue.room first.old first.new }
    ensures second { SameQueues C.Queue.room M.Queue.room second.old second.new }
    ensures buffers { SameBuffers buffers.old buffers.new }
    ensures law { OrderLaw T.Means.meaning (room_in (record { first = room_of B.Queue.room L.Queue.room first.old; second = room_of C.Queue.room M.Queue.room second.old }) order.now.queues) planner.old order.now result (held buffers.old) planner.new (held buffers.new) }
{
    // The pairs differ in type, so each has a call of its own.
    match order.queues {
        Queues::First => lend(planner, order, first, buffers),
        Queues::Second => lend(planner, order, second, buffers),
    }
}
