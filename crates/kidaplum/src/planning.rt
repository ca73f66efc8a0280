use analysis::bounds::seek_bounds;
use analysis::plan::{Plan, quick_plan};
use analysis::task::Task;
use analysis::task_set::{Arranged, SmallSet, TaskSet};
use interference::full::Full;
use std::io;

pub fn plan(rt: &HostRuntime, cores: u32, tasks: &[Task]) -> io::Result<()> {
    let Some(small) = TaskSet::check(cores, tasks).and_then(|set| set.small()) else {
        return println!(rt; "these are not at most 8 tasks within the limits on 1 to 16 cores");
    };
    match quick_plan(&Full, &small) {
        None => println!(rt; "no order passes with any region lengths"),
        Some(found) => show(rt, &small, &found),
    }
}

// Places from the highest down, each with its task, region length and bound.
fn show<'a>(rt: &HostRuntime, small: &SmallSet<'a>, found: &'a Plan) -> io::Result<()> {
    let order = &found.order[..small.set.tasks.len()];
    println!(rt; "first plan, highest place first")?;
    for (p, k) in order.iter().rev().enumerate() {
        let length = found.lengths.get(*k).copied().unwrap_or(0);
        println!(rt;
            "  place {}: task {}, region length {length}",
            p + 1,
            k.saturating_add(1)
        )?;
    }
    match arranged(small, found) {
        None => println!(rt; "this is no plan of these tasks"),
        Some(tasks) => bounds(rt, &tasks),
    }
}

// The tasks in the order and with the lengths of a plan.
fn arranged<'a>(small: &SmallSet<'a>, found: &'a Plan) -> Option<Arranged<'a>> {
    let set = small.set;
    let order = &found.order[..set.tasks.len()];
    set.ordered(order)?.arranged(&found.lengths)
}

fn bounds(rt: &HostRuntime, tasks: &Arranged) -> io::Result<()> {
    let Some(found) = seek_bounds(&Full, tasks) else {
        return println!(rt; "no bounds solve the equations within the deadlines");
    };
    println!(rt; "least bounds")?;
    for (k, (t, bound)) in tasks.ordered.set.tasks.iter().zip(&found).enumerate() {
        println!(rt;
            "  task {}: finished within {bound} of {}",
            k + 1,
            t.deadline
        )?;
    }
    Ok(())
}
