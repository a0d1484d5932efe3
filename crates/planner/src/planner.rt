ghost use Rattle.std.specs.Prelude.{◌≡◌, None};
ghost use Rattle.planner.specs.Laws.{NewLaw};

use notices::Notices;
use questions::Standing;
use timetable::Timetable;

mod asking;
mod reporting;
mod searching;

/// A timetable under reports and, after a search, the standing search.
#[derive(Drop)]
pub struct Planner<T> {
    notices: Notices<T>,
    standing: Option<Standing>,
}

impl<T: Timetable> Planner<T> {
    /// A planner over the timetable as it is: nothing is reported, and no search stands.
    pub fn new(timetable: T) -> Planner<T>
        ensures below { result.notices.below ≡ timetable }
        ensures standing { result.standing ≡ None }
        ensures law { NewLaw T.Means.meaning result }
    {
        Planner {
            notices: Notices::new(timetable),
            standing: None,
        }
    }
}
