ghost use Rattle.std.specs.Prelude.{◌≡◌, ℕ, ◌<◌, ◌≤◌, length, None, IsSome, MatchOption, MatchResult, slice_index_or};
ghost use Rattle.refusals.specs.declared.refusal.Refusal.TheVariants.{FullNotices, NothingToLift};
ghost use Rattle.notices.specs.Slots.{said, found, used, OneEach, IsSlotFor, Entered};

use crate::notice::Notice;
use refusals::Refusal;
use timetable::{Report, Train};

/// 32 slots, each with a notice or free. No two notices are for one train.
// Nothing is allocated, so the notices stand in fixed slots and not in a map. Contracts see the slots through `found` and
// `used`: a model would hold these two, and no clause would be shorter.
#[derive(Drop)]
pub struct NoticeTable {
    slots: [Option<Notice>; 32],
    ghost apart: { OneEach slots },
    ghost all: { length slots ≡ 32 },
}

impl NoticeTable {
    /// A table in which no notice stands.
    pub fn new() -> NoticeTable
        ensures { (((z : ℕ) → found result.slots z ≡ None)) × (used result.slots ≡ 0) }
    {
        NoticeTable { slots: [None; 32] }
    }

    /// The slot whose notice is for this train.
    fn slot_of(&self, train: Train) -> Option<usize>
        ensures { MatchOption result (found self.now.slots train.0 ≡ None) (λ i. IsSlotFor self.now.slots train.0 i × (found self.now.slots train.0 ≡ said (slice_index_or self.now.slots i None)) × IsSome (found self.now.slots train.0)) }
    {
        // By decision a `for` over the slots: it ends at the train's own, and its invariant says that no slot before it is.
        for (i, slot) in self.slots.iter().enumerate() {
            if slot.is_some_and(|notice| notice.names(train)) {
                return Some(i);
            }
        }
        None
    }

    /// A slot in which no notice stands.
    fn free_slot(&self) -> Option<usize>
        ensures { MatchOption result ((j : ℕ) → j < 32 → IsSome (slice_index_or self.now.slots j None)) (λ i. (i < 32) × (slice_index_or self.now.slots i None ≡ None)) }
    {
        self.slots.iter().position(|slot| slot.is_none())
    }

    /// The slot for a notice of this train: the one that it has, or a free one.
    fn slot_for(&self, train: Train) -> Option<usize>
        ensures { MatchOption result ((32 ≤ used self.now.slots) × (found self.now.slots train.0 ≡ None)) (λ i. IsSlotFor self.now.slots train.0 i × ((32 ≤ used self.now.slots) → IsSome (found self.now.slots train.0))) }
    {
        self.slot_of(train).or_else(|| self.free_slot())
    }

    /// Replaces what stands in a slot for this train.
    fn replace(&mut self, i: usize, train: Train, report: Option<Report>)
        requires { IsSlotFor self.old.slots train.0 i }
        ensures { Entered self.old.slots self.new.slots train.0 report }
    {
        self.slots[i] = report.map(|report| Notice { train, report });
    }

    /// What is reported of a train.
    pub fn says(&self, train: Train) -> Option<Report>
        ensures { result ≡ found self.now.slots train.0 }
    {
        let i = self.slot_of(train)?;
        self.slots[i].map(|notice| notice.report)
    }

    /// Enters a report over what stood for the train. Refused: `FullNotices` where 32 notices stand, none of them for this
    /// train.
    // The report is an `Option`, since nothing may be entered, too, and then no notice stands for the train.
    pub fn enter(&mut self, train: Train, report: Option<Report>) -> Result<(), Refusal>
        ensures { MatchResult result (λ _. Entered self.old.slots self.new.slots train.0 report × ((32 ≤ used self.old.slots) → IsSome (found self.old.slots train.0))) (λ e. (e ≡ FullNotices train.0) × (32 ≤ used self.old.slots) × (found self.old.slots train.0 ≡ None) × (self.new ≡ self.old)) }
    {
        let i = self.slot_for(train).ok_or(Refusal::FullNotices(train.0))?;
        self.replace(i, train, report);
        Ok(())
    }

    /// Takes the notice for a train away. Refused: `NothingToLift` where none stands.
    pub fn lift(&mut self, train: Train) -> Result<(), Refusal>
        ensures { MatchResult result (λ _. Entered self.old.slots self.new.slots train.0 None × IsSome (found self.old.slots train.0)) (λ e. (e ≡ NothingToLift train.0) × (found self.old.slots train.0 ≡ None) × (self.new ≡ self.old)) }
    {
        let i = self.slot_of(train).ok_or(Refusal::NothingToLift(train.0))?;
        self.replace(i, train, None);
        Ok(())
    }
}
