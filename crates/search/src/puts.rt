//! Putting entries into a queue that has the room for them.
//!
//! A queue in order has no type of its own here. What `ordered` says is a type that each make of queue chooses, so a ghost
//! field could hold it only truncated, and the promises of the queue ask for it whole; and each function that puts would
//! have to say that the same queue is still lent.

ghost use Rattle.std.specs.Prelude.{[], ◌∷◌, length};
ghost use Rattle.turns.specs.Puts.{Ready, Grown, those};

use queue::{Entry, Queue};

/// Puts one entry.
pub(crate) fn add<E: Entry, Q: Queue<E>>(q: &mut Q, e: E)
    requires { Ready Q.Queue 1 q.old }
    ensures { Grown Q.Queue E.Entry.ahead (e ∷ []) q.old q.new }
{
    // There is room, so it is not refused.
    let _ = q.put(e);
}

/// Puts the entry, if there is one.
pub(crate) fn add_some<E: Entry, Q: Queue<E>>(q: &mut Q, e: Option<E>)
    requires { Ready Q.Queue (length (those e)) q.old }
    ensures { Grown Q.Queue E.Entry.ahead (those e) q.old q.new }
{
    if let Some(x) = e {
        add(q, x);
    }
}
