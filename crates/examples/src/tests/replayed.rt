use crate::outsider::{Twice, replay_twice};
use analysis::task::Task;
use interference::handler::Handler;
use interference::interrupt::Interrupt;
use planner::marks::Marks;
use planner::open::OpenTable;
use planner::replay::{Call, FixedCall, OpenCall, Outcome, QuickCall, Report};
use std::alloc::{AllocError, Global};
use std::process::Abort;
use std::test::Fail;

const UNMARKED: Marks = Marks {
    passed: false,
    bounded: false,
};

const PASSED: Marks = Marks {
    passed: true,
    bounded: false,
};

const BOTH: Marks = Marks {
    passed: true,
    bounded: true,
};

fn enter<R, S>(cost: u32, deadline: u32, period: u32) -> Call<R, S> {
    Call::Open(OpenCall::Enter(Task {
        cost,
        deadline,
        period,
    }))
}

// Three tasks on two cores: searches under a rule that was brought as steady, and then as any rule.
fn calls(
    heap: Global,
    interrupt: Interrupt,
) -> Result<Vec<Call<Handler<Twice>, Handler<Twice>>>, AllocError> {
    Ok(vec![in heap;
        Call::Open(OpenCall::Cores(2)),
        enter(10, 33, 61),
        enter(9, 19, 34),
        enter(7, 47, 80),
        Call::FixSteady(Handler {
            interrupt,
            below: Twice
        }),
        Call::Fixed(FixedCall::SeekLengths),
        Call::Quick(QuickCall::Plan),
        Call::Fixed(FixedCall::SeekBounds),
        Call::Reopen,
        Call::Fix(Handler {
            interrupt,
            below: Twice
        }),
        Call::Quick(QuickCall::Plan),
        Call::Fixed(FixedCall::SeekPlan),
    ]?)
}

// Places, lengths and bounds of three tasks, and both marks.
fn shows(
    rt: &impl Abort,
    report: &Report,
    places: [u32; 3],
    lengths: [u32; 3],
    bounds: [u32; 3],
    marks: Marks,
) -> Result<(), Fail> {
    let Some(standing) = report.fixed else {
        return Err(Fail::new("an open table"));
    };
    let three = |xs: [u32; 32]| [xs[0], xs[1], xs[2]];
    assert_eq!(rt; report.count, 3);
    assert_eq!(rt; three(standing.places), places);
    assert_eq!(rt; three(standing.lengths), lengths);
    assert_eq!(rt; three(standing.bounds), bounds);
    assert_eq!(rt; standing.marks, marks);
    Ok(())
}

// under the full rule the first plan would be in the order 3 2 1, with lengths 1
#[test]
fn replays_under_an_outsider(rt: HostRuntime) -> Result<(), Fail> {
    let interrupt = Interrupt::check(2, 20)?;
    let mut reports = [Report::BLANK; 12];
    let table = OpenTable::new(rt.alloc())?;
    let (n, _) = replay_twice(table, calls(rt.alloc(), interrupt)?, &mut reports);
    assert_eq!(rt; n, 12);
    let Outcome::Refused(refusal) = reports[5].outcome else {
        return Err(Fail::new("not refused"));
    };
    assert_eq!(rt; u8::from(refusal), 7);
    shows(&rt, &reports[5], [1, 2, 3], [1; 3], [0; 3], UNMARKED)?;
    shows(&rt, &reports[6], [2, 3, 1], [5, 1, 1], [0; 3], PASSED)?;
    shows(&rt, &reports[7], [2, 3, 1], [5, 1, 1], [28, 14, 21], BOTH)?;
    assert_eq!(rt; reports[10].outcome, Outcome::NotApplicable);
    shows(&rt, &reports[10], [1, 2, 3], [1; 3], [0; 3], UNMARKED)?;
    shows(&rt, &reports[11], [2, 3, 1], [5, 1, 1], [0; 3], PASSED)?;
    Ok(())
}
