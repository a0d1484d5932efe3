//! The search: from a source, over any timetable, with two queues and a label memory that the caller lends.
//!
//! One search is for every first departure. Each has a rank, in the order of departure, and a row in the memory; in row i
//! stands, for each place, when and whence the departure of rank i comes there, unless a higher rank comes there as early.
//! The places are the stations and then the connections.
//!
//! A timetable of a day, with three stations, whose transfer times are 3, 5 and 4 minutes; each connection with its train,
//! its departure and its ride:
//!
//! ```text
//!        c0: train 0, 480 + 20            c1: train 0, 505 + 30
//!     0 ───────────────────────────▶ 1 ───────────────────────────▶ 2
//!        c2: train 1, 490 + 10            c3: train 2, 504 + 25
//!                                         c5: train 4, 530 + 20
//!     0 ──────────────── c4: train 3, 1430 + 40 ──────────────────▶ 2
//! ```
//!
//! The rows of a search from station 0 hold minute and origin, `·` where they are blank. Origin 5 is the place of c2, and `−`
//! stands for the first ride, which has none:
//!
//! ```text
//!     rank  first      0   1      2       c0     c1     c2     c3      c4      c5
//!     0     480 c0     ·   ·      ·       480 −  ·      ·      ·       ·       ·
//!     1     490 c2     ·   500 5  535 4   ·      505 1  490 −  1944 1  ·       530 1
//!     2     1430 c4    ·   ·      1470 7  ·      ·      ·      ·       1430 −  ·
//! ```
//!
//! Who takes c0 is at station 1 at 500, and so is who takes c2, which leaves later: row 0 is blank there. From 500 the transfer
//! time of 5 minutes is over in time for c1 at 505, and too late for c3 at 504, which is reached a day later.

#![tactic(auto)]

ghost use Rattle.std.specs.Prelude.{min};
ghost use Rattle.search.specs.Answer.{SearchAnswered, Returned};

use entries::{BoardEntry, LabelEntry};
use plan::Plan;
use queue::Queue;
use refusals::Refusal;
use timetable::{Label, Means, Station, Timetable};

mod board;
pub mod found;
mod lead;
pub mod limits;
mod opening;
mod plan;
mod puts;
mod rows;
mod run;

pub use found::Found;
pub use limits::Limits;
pub use plan::departures;

// The two queues are two parameters throughout: a struct that lends both would have to say, beside what each holds, that it
// still lends the same two.

/// Writes the rows of a search from a source: every leading label with its origin, a row for each first departure.
///
/// Refused, and then nothing is changed: `NoSource`; `SmallBoard`, a board for fewer than the first departures;
/// `SmallLabelQueue`, a label queue for fewer than first departures × (3 × connections + 1) entries; `SmallLabelMemory`, a
/// memory shorter than first departures × (places + 1).
///
/// Costs one take for each first departure on the board, and for each entry of the label queue one take and a look at the
/// rows of its rank and the higher ones; a station's label asks for every connection.
pub fn search<T: Timetable, B: Queue<BoardEntry>, L: Queue<LabelEntry>>(
    t: &T,
    source: Station,
    board: &mut B,
    labels: &mut L,
    memory: &mut [Label],
) -> Result<Found, Refusal>
    ensures answer { SearchAnswered (T.Means.meaning t.now) source.0 (B.Queue.room board.old) (L.Queue.room labels.old) memory.old result memory.new }
    ensures board { Returned B.Queue result board.old board.new }
    ensures labels { Returned L.Queue result labels.old labels.new }
{
    search_within(t, source, Limits::of(board, labels), board, labels, memory)
}

/// The same, with no more entries of each queue than the limits say: its capacity counts up to its limit.
pub fn search_within<T: Timetable, B: Queue<BoardEntry>, L: Queue<LabelEntry>>(
    t: &T,
    source: Station,
    limits: Limits,
    board: &mut B,
    labels: &mut L,
    memory: &mut [Label],
) -> Result<Found, Refusal>
    ensures answer { SearchAnswered (T.Means.meaning t.now) source.0 (min limits.board (B.Queue.room board.old)) (min limits.labels (L.Queue.room labels.old)) memory.old result memory.new }
    ensures board { Returned B.Queue result board.old board.new }
    ensures labels { Returned L.Queue result labels.old labels.new }
{
    let plan = Plan::new(t, source);
    let board_room = limits.board.min(board.capacity());
    let labels_room = limits.labels.min(labels.capacity());
    plan.check(board_room, labels_room, memory.len())?;
    board.clear();
    plan.fill(board);
    labels.clear();
    plan.open(board, labels, memory);
    let written = plan.run(labels, memory);
    Ok(Found {
        departures: plan.departures,
        labels: written,
    })
}
