//! The loop of the search.

ghost use Rattle.std.specs.Prelude.{[]};
ghost use Rattle.turns.specs.Running.{Turn};
ghost use Rattle.search.specs.Answer.{Emptied};

use crate::lead::Leading;
use crate::plan::Plan;
use entries::LabelEntry;
use queue::Queue;
use timetable::{Label, Means, Timetable};

impl<T: Timetable> Plan<'_, T> {
    /// Takes entry after entry, and writes each that no label of its rank or a higher one forestalls. Answers how many.
    pub(crate) fn run<L: Queue<LabelEntry>>(&self, labels: &mut L, memory: &mut [Label]) -> u32
        requires ordered { L.Queue.ordered labels.old }
        requires opened { Turn (T.Means.meaning self.now.t.now) self.now.source.0 (L.Queue.room labels.old) memory.old memory.old (L.Queue.bag labels.old) 0 }
        ensures ended { Turn (T.Means.meaning self.now.t.now) self.now.source.0 (L.Queue.room labels.old) memory.old memory.new [] result }
        ensures labels { Emptied L.Queue labels.old labels.new }
    {
        // The queue that the loop empties is the one that it fills, so no iterator over it can count what is written.
        let mut written: u32 = 0;
        while let Some(x) = labels.take() {
            if !self.settled(memory, x) {
                self.write(memory, x);
                Leading {
                    t: self.t,
                    label: x,
                }
                .lead(labels);
                written += 1;
            }
        }
        written
    }
}
