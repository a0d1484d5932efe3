ghost use Rattle.std.specs.Prelude.{◌≡◌, Some, None, MatchResult};
ghost use Rattle.refusals.specs.Told.{told};

use crate::refusal::Refusal;

/// Number, layer and item of the refusal of a call, as equipment reads them; none where it was not refused.
pub fn refused_as<T: Drop>(outcome: Result<T, Refusal>) -> Option<(u8, u8, usize)>
    ensures { MatchResult outcome (λ _. result ≡ None) (λ e. result ≡ Some ((told e).number, (told e).layer, (told e).item)) }
{
    outcome.err().map(|refusal| refusal.told())
}
