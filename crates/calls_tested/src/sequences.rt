use crate::line::Line;
use crate::script::{Step, calls};
use crate::scripts::{ANY_RULE, LIMITS, ORDERS_AND_LENGTHS, SECOND_EXAMPLE, STEADY_RULES};
use planner::marks::Marks;
use planner::open::OpenTable;
use planner::replay::{Report, Standing, Table, replay};
use std::alloc::Global;
use std::process::Abort;
use std::test::Fail;

// A report that no call wrote.
const BLANK: Report = Report {
    cores: 77,
    fixed: Some(Standing {
        marks: Marks {
            passed: true,
            bounded: true,
        },
        order: [0; 32],
        places: [0; 32],
        lengths: [0; 32],
        bounds: [0; 32],
    }),
    ..Report::BLANK
};

fn says(rt: &impl Abort, heap: Global, report: &Report, line: &str) -> Result<(), Fail> {
    assert_eq!(rt; Line(report).to_string(heap)?.as_str(), line);
    Ok(())
}

// Plays a script on a new table by `replay`, and compares each report with its line.
fn plays(rt: &impl Abort, heap: Global, script: &[(Step, &str)]) -> Result<(), Fail> {
    let mut reports = [BLANK; 40];
    let (n, _) = replay(OpenTable::new(heap)?, calls(heap, script)?, &mut reports);
    assert_eq!(rt; n, script.len());
    for (report, (_, said)) in reports.iter().zip(script.iter()) {
        says(rt, heap, report, said)?;
    }
    Ok(())
}

#[test]
fn limits(rt: HostRuntime) -> Result<(), Fail> {
    plays(&rt, rt.alloc(), &LIMITS)
}

#[test]
fn orders_and_lengths(rt: HostRuntime) -> Result<(), Fail> {
    plays(&rt, rt.alloc(), &ORDERS_AND_LENGTHS)
}

#[test]
fn any_rule(rt: HostRuntime) -> Result<(), Fail> {
    plays(&rt, rt.alloc(), &ANY_RULE)
}

#[test]
fn steady_rules(rt: HostRuntime) -> Result<(), Fail> {
    plays(&rt, rt.alloc(), &STEADY_RULES)
}

#[test]
fn second_example(rt: HostRuntime) -> Result<(), Fail> {
    plays(&rt, rt.alloc(), &SECOND_EXAMPLE)
}

// What stands in places for reports.
fn are(rt: &impl Abort, heap: Global, reports: &[Report], lines: &[&str]) -> Result<(), Fail> {
    assert_eq!(rt; reports.len(), lines.len());
    for (report, said) in reports.iter().zip(lines.iter()) {
        says(rt, heap, report, said)?;
    }
    Ok(())
}

// more calls than places: the rest is not carried out
#[test]
fn fewer_places(rt: HostRuntime) -> Result<(), Fail> {
    let heap = rt.alloc();
    let mut reports = [BLANK; 2];
    let (n, table) = replay(OpenTable::new(heap)?, calls(heap, &ANY_RULE)?, &mut reports);
    assert_eq!(rt; n, 2);
    are(
        &rt,
        heap,
        &reports,
        &["done; open on 2:", "done; open on 2: 36/110/207"],
    )?;
    let Table::Open(t) = table else {
        return Err(Fail::new("a fixed table"));
    };
    assert_eq!(rt; t.rows().len(), 1);
    Ok(())
}

const UNTOUCHED: &str = "not applicable; fixed on 77: order; lengths; bounds; passed; bounded";

// no calls: nothing is reported, and the table is the one that came in
#[test]
fn no_calls(rt: HostRuntime) -> Result<(), Fail> {
    let heap = rt.alloc();
    let mut reports = [BLANK; 2];
    let mut table = OpenTable::new(heap)?;
    let _ = table.cores(5);
    let (n, table) = replay(table, calls(heap, &[])?, &mut reports);
    assert_eq!(rt; n, 0);
    are(&rt, heap, &reports, &[UNTOUCHED; 2])?;
    let Table::Open(t) = table else {
        return Err(Fail::new("a fixed table"));
    };
    assert_eq!(rt; t.core_count(), 5);
    Ok(())
}

// fewer calls than places: the reports past the last call stay
#[test]
fn more_places(rt: HostRuntime) -> Result<(), Fail> {
    let heap = rt.alloc();
    let mut reports = [BLANK; 3];
    let two = [(Step::Cores(4), ""), (Step::FixLimited, "")];
    let (n, table) = replay(OpenTable::new(heap)?, calls(heap, &two)?, &mut reports);
    assert_eq!(rt; n, 2);
    are(
        &rt,
        heap,
        &reports,
        &[
            "done; open on 4:",
            "done; fixed on 4: order; lengths; bounds",
            UNTOUCHED,
        ],
    )?;
    let Table::Fixed(t) = table else {
        return Err(Fail::new("an open table, or one under a steady rule"));
    };
    assert_eq!(rt; t.core_count(), 4);
    Ok(())
}
