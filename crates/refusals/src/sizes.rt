ghost use Rattle.std.specs.Prelude.{◌≡◌, ◌<◌, ◌≤◌, MatchResult};

use crate::refusal::Refusal;

/// Whether as much is there as is needed; else the refusal.
pub fn enough(there: usize, needed: usize, refusal: Refusal) -> Result<(), Refusal>
    ensures { MatchResult result (λ _. needed ≤ there) (λ e. (there < needed) × (e ≡ refusal)) }
{
    if there < needed {
        return Err(refusal);
    }
    Ok(())
}
