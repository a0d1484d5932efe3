ghost use Rattle.std.specs.Prelude.{◌≡◌, ◌<◌, ◌≤◌, MatchResult};
ghost use Rattle.refusals.specs.declared.refusal.Refusal.TheVariants.{FullQueue};

use refusals::Refusal;

// No `enough` of the refusals: it asks for one cell more than is held.
/// Whether one entry more can be held. Refused: `FullQueue`, where as many are held as there are cells.
pub fn check_room(held: usize, capacity: usize) -> Result<(), Refusal>
    ensures { MatchResult result (λ _. held < capacity) (λ e. (capacity ≤ held) × (e ≡ FullQueue capacity)) }
{
    if capacity <= held {
        return Err(Refusal::FullQueue(capacity));
    }
    Ok(())
}
