ghost use Rattle.std.specs.Prelude.{◌≡◌, ℕ, List, [], length};
ghost use Rattle.queue.specs.Promises.{Placed, Taken, Least};

use crate::entry::Entry;
use refusals::Refusal;

/// A queue of entries in memory of a fixed size. It is in order from its making or a clear on; what `put` and `take`
/// promise, they promise of a queue in order. Every call is safe in any state.
pub trait Queue<E: Entry> {
    /// the entries held, the first to be handed out first: since the order ties only equal entries, this list stands
    /// for the bag of entries
    ghost bag: { Self → List E };

    /// the capacity: the number of cells of its memory
    ghost room: { Self → ℕ };

    /// the queue is in order
    // It is a premise and no invariant, so that a make need only mean something from its making or a clear on.
    ghost ordered: { Self → Type 0 };

    /// Adds an entry. Refused: `FullQueue`, exactly where the entries held equal the capacity, and the queue is as it
    /// was.
    fn put(&mut self, e: E) -> Result<(), Refusal>
        ensures room { room self.new ≡ room self.old }
        ensures ordered { ordered self.old → ordered self.new }
        ensures placed { ordered self.old → Placed E.Entry.ahead bag room e self.old result self.new };

    /// Takes the first entry out; none exactly where nothing is held.
    fn take(&mut self) -> Option<E>
        ensures room { room self.new ≡ room self.old }
        ensures ordered { ordered self.old → ordered self.new }
        ensures taken { ordered self.old → Taken bag self.old result self.new }
        ensures least { ordered self.old → Least E.Entry.ahead bag result self.new };

    /// Empties the queue, whatever its state, and has it in order.
    fn clear(&mut self)
        ensures room { room self.new ≡ room self.old }
        ensures ordered { ordered self.new }
        ensures none { bag self.new ≡ [] };

    /// How many entries are held.
    fn held(&self) -> usize
        ensures { ordered self.now → result ≡ length (bag self.now) };

    /// How many entries can be held.
    fn capacity(&self) -> usize
        ensures { result ≡ room self.now };
}
