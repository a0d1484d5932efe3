//! What the questions answer: definitions over rows as they stand, and the theorems that tie them to all itineraries
//! where a search wrote the rows. Each theorem is the contract of a function, so that the crate is not proved without it.

#![tactic(auto)]

ghost use Rattle.answers.specs.Theorems.{ArrivePinned, ProfilePinned, JourneyPinned, ArriveTells, ProfileTells, JourneyTells};

pub mod view;

pub use view::View;

/// The rows have one first unbeaten pair at or after a minute.
pub fn arrive_is_pinned()
    ensures { ArrivePinned }
{}

/// They have one list of unbeaten pairs.
pub fn profile_is_pinned()
    ensures { ProfilePinned }
{}

/// They tell one list of legs.
pub fn journey_is_pinned()
    ensures { JourneyPinned }
{}

/// Where a search wrote the rows, arrive answers the first unbeaten pair of all itineraries, and is refused past its
/// arguments exactly where there is no itinerary.
pub fn arrive_tells()
    ensures { ArriveTells }
{}

/// Profile writes exactly the unbeaten pairs of all itineraries.
pub fn profile_tells()
    ensures { ProfileTells }
{}

/// Journey writes the legs of an itinerary that has the pair that arrive answers.
pub fn journey_tells()
    ensures { JourneyTells }
{}
