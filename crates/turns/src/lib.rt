//! What holds between the turns of a search over rows in a label memory: mathematics only. Each theorem is the contract of a
//! function, so that the crate is not proved without it.

#![tactic(auto)]

ghost use Rattle.turns.specs.Theorems.{OpeningIsTurn, DropKeeps, SettleKeeps, EndGivesRows, FewWritten};

/// When every first departure has its row and its ride is in the label queue, a search is between two turns.
pub fn opening_is_turn()
    ensures { OpeningIsTurn }
{}

/// A turn that drops its entry, since the entry's rank or a higher one has a label at its place, keeps what holds between
/// turns.
pub fn dropping_keeps()
    ensures { DropKeeps }
{}

/// A turn that writes its entry's label and puts what it leads to keeps it too, finds room for every put, and brings the
/// end nearer.
pub fn settling_keeps()
    ensures { SettleKeeps }
{}

/// With an empty queue the memory has the rows of the search.
pub fn end_gives_rows()
    ensures { EndGivesRows }
{}

/// At most first departures × places labels are written.
pub fn few_are_written()
    ensures { FewWritten }
{}
