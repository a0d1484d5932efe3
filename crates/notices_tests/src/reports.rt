use draft::Draft;
use draft::examples::example_a;
use image::Image;
use notices::Notices;
use refusals::{Refusal, refused_as as told};
use std::process::Abort;
use std::test::Fail;
use timetable::{ConnectionNo, Counts, Timetable, Train};

/// Departure, ride and whether it runs.
fn told_of<T: Timetable>(t: &T, number: u16) -> Result<(u16, u16, bool), Refusal> {
    let c = t.connection(ConnectionNo(number))?;
    Ok((c.departure, c.ride, c.runs))
}

/// Timetable A: train 2 is connection 3, train 1 connection 2, train 3 connection 4.
fn reports_on_a<T: Timetable>(rt: &impl Abort, t: &mut Notices<T>) -> Result<(), Fail> {
    t.late(Train(2), 1)?;
    assert_eq!(rt; told_of(t, 3)?, (505, 25, true));
    assert_eq!(rt; told_of(t, 1)?, (505, 30, true));
    t.cancel(Train(1))?;
    assert_eq!(rt; told_of(t, 2)?, (490, 10, false));
    t.late(Train(3), 15)?;
    assert_eq!(rt; told_of(t, 4)?, (5, 40, true));
    t.late(Train(1), 1440)?;
    assert_eq!(rt; told_of(t, 2)?, (490, 10, true));
    t.cancel(Train(2))?;
    assert_eq!(rt; told_of(t, 3)?, (504, 25, false));
    t.lift(Train(2))?;
    assert_eq!(rt; told_of(t, 3)?, (504, 25, true));
    assert_eq!(rt; told_of(t, 4)?, (5, 40, true));
    Ok(())
}

/// Notices over an image of these bytes.
fn notices_over(bytes: &[u8]) -> Result<Notices<Image<'_>>, Refusal> {
    Ok(Notices::new(Image::try_from(bytes)?))
}

// Tests of one shape stay apart: what is left of each is its own make, cells, numbers and name.
#[test]
fn reports_change_connections(rt: HostRuntime) -> Result<(), Fail> {
    let a = example_a(rt.alloc())?;
    reports_on_a(&rt, &mut notices_over(a.bytes())?)
}

fn refusals_on_a<T: Timetable>(rt: &impl Abort, t: &mut Notices<T>) -> Result<(), Fail> {
    assert_eq!(rt; told(t.cancel(Train(5))), Some((21, 2, 5)));
    assert_eq!(rt; told(t.late(Train(5), 0)), Some((21, 2, 5)));
    assert_eq!(rt; told(t.lift(Train(5))), Some((21, 2, 5)));
    assert_eq!(rt; told(t.late(Train(4), 0)), Some((22, 2, 0)));
    assert_eq!(rt; told(t.late(Train(4), 1441)), Some((22, 2, 1441)));
    assert_eq!(rt; told(t.lift(Train(4))), Some((24, 2, 4)));
    assert_eq!(rt; told_of(t, 5)?, (530, 20, true));
    Ok(())
}

#[test]
fn refused_reports(rt: HostRuntime) -> Result<(), Fail> {
    let a = example_a(rt.alloc())?;
    refusals_on_a(&rt, &mut notices_over(a.bytes())?)
}

/// 32 notices stand; of a timetable with 34 trains.
fn fill<T: Timetable>(rt: &impl Abort, t: &mut Notices<T>) -> Result<(), Fail> {
    for train in 0..32 {
        t.cancel(Train(train))?;
    }
    assert_eq!(rt; told(t.cancel(Train(32))), Some((23, 2, 32)));
    assert_eq!(rt; told(t.late(Train(33), 9)), Some((23, 2, 33)));
    assert_eq!(rt; told(t.late(Train(33), 0)), Some((22, 2, 0)));
    assert_eq!(rt; told(t.lift(Train(33))), Some((24, 2, 33)));
    t.late(Train(31), 9)?;
    t.lift(Train(7))?;
    t.cancel(Train(32))?;
    assert_eq!(rt; told(t.cancel(Train(7))), Some((23, 2, 7)));
    t.lift(Train(31))?;
    t.cancel(Train(7))?;
    Ok(())
}

#[test]
fn all_slots(rt: HostRuntime) -> Result<(), Fail> {
    let counts = Counts {
        period: 60,
        stations: 1,
        trains: 34,
        connections: 0,
    };
    let draft = Draft::of(rt.alloc(), counts, &[0], &[])?;
    fill(&rt, &mut notices_over(draft.bytes())?)
}
