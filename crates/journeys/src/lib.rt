//! The mathematics of the search: theorems about labels, first departures and the search as a relation, for any lawful
//! timetable. Each is the contract of a function, so that the crate is not proved without it.

#![tactic(auto)]

ghost use Rattle.journeys.specs.Checked.{CheckSound};
ghost use Rattle.journeys.specs.Chosen.{PairsChosen, PairsCover, UnbeatenCover, UnbeatenAlways, FirstUnbeaten};
ghost use Rattle.journeys.specs.Paths.{Bridge};
ghost use Rattle.journeys.specs.Profiles.{ProfileSound, ProfileChecked, ArrivalChecked};
ghost use Rattle.journeys.specs.Queued.{OpeningBegins, LeadsPut, SearchFinishes, SearchPutsFew};
ghost use Rattle.journeys.specs.Theorems.{FirstDepartures, NextFirst, GivesMonotone, SearchBegins, SearchKeeps, SearchEnds, SearchFound, LabelsSmall, SearchSmall};
ghost use Rattle.journeys.specs.Trace.{OriginsTell};
ghost use Rattle.journeys.specs.Worked.{Worked};

/// The first departures are the running connections that start at the source, each once, by departure and then by
/// number.
pub fn first_departures()
    ensures { FirstDepartures }
{}

/// An itinerary that departs at 0 or later is a path over natural minutes, and each path is one.
pub fn itineraries_are_paths()
    ensures { Bridge }
{}

/// The next departure at or after a minute is a departure, and none at or after that minute is earlier.
pub fn next_departure_is_first()
    ensures { NextFirst }
{}

/// What an earlier label gives is no later.
pub fn earlier_gives_no_later()
    ensures { GivesMonotone }
{}

/// A search that begins with the first rides in its queue has what holds between its steps.
pub fn search_begins()
    ensures { SearchBegins }
{}

/// Every step of a search keeps it.
pub fn search_keeps()
    ensures { SearchKeeps }
{}

/// With an empty queue the settled labels are exactly the leading labels, with exactly their origins.
pub fn search_ends()
    ensures { SearchEnds }
{}

/// So every search that has come to an empty queue has found exactly these.
pub fn search_finds()
    ensures { SearchFound }
{}

/// Every label is below 400,000,000.
pub fn labels_are_small()
    ensures { LabelsSmall }
{}

/// So is every minute that a search settles or queues; it settles no rank and place twice, and at most first departures ×
/// places labels.
pub fn searches_are_small()
    ensures { SearchSmall }
{}

/// The list of the first rides is what a search begins with.
pub fn first_rides_begin()
    ensures { OpeningBegins }
{}

/// The list of what an entry leads to has one entry for each ride's arrival, stay and change, and no other.
pub fn leads_are_put()
    ensures { LeadsPut }
{}

/// From every source some search comes to an empty queue.
pub fn searches_finish()
    ensures { SearchFinishes }
{}

/// A search never puts more than first departures × (3 × connections + 1) entries.
pub fn searches_put_few()
    ensures { SearchPutsFew }
{}

/// The unbeaten pairs of all itineraries are the pairs of departures and leading labels, moved by whole periods, that none of
/// these beats.
pub fn pairs_are_chosen()
    ensures { PairsChosen }
{}

/// For every itinerary such a pair departs no earlier and arrives no later.
pub fn pairs_are_covered()
    ensures { PairsCover }
{}

/// Following origins from a settled label, each step falls, the rides met are an itinerary that reaches the label, and the
/// legs told on the way are that itinerary's.
pub fn origins_tell_itineraries()
    ensures { OriginsTell }
{}

/// For every itinerary an unbeaten pair departs no earlier and arrives no later.
pub fn unbeaten_pairs_cover()
    ensures { UnbeatenCover }
{}

/// Where any itinerary leads to the target, an unbeaten pair departs in every period.
pub fn unbeaten_pairs_always_depart()
    ensures { UnbeatenAlways }
{}

/// The first unbeaten pair at or after a moment arrives no later than any itinerary that leaves then or later.
pub fn first_unbeaten_arrives_first()
    ensures { FirstUnbeaten }
{}

/// A list of labels that passes a check which computes is the list of the leading labels with their origins.
pub fn check_is_sound()
    ensures { CheckSound }
{}

/// The labels of a target that pass a check which computes are its unbeaten pairs.
pub fn profile_check_is_sound()
    ensures { ProfileSound }
{}

/// A list of pairs that passes the check is the profile of its target.
pub fn profiles_are_checked()
    ensures { ProfileChecked }
{}

/// A pair that passes the check is the first unbeaten pair at or after its minute.
pub fn arrivals_are_checked()
    ensures { ArrivalChecked }
{}

/// The worked examples hold of the definitions.
pub fn worked_examples()
    ensures { Worked }
{}
