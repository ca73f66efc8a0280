use crate::table::Table;
use analysis::bounds::seek_bounds;
use analysis::finder::Finder;
use analysis::lengths::lengths_by;
use analysis::plan::{Plan, plan_by};
use analysis::task_set::TaskSet;
use interference::rule::Rule;

// The table, its order or its lengths are not within the limits.
#[derive(Clone, Copy)]
pub struct OutsideLimits;

fn set_of(table: &Table) -> Result<TaskSet<'_>, OutsideLimits> {
    TaskSet::check(table.cores, &table.tasks).ok_or(OutsideLimits)
}

pub fn lengths<R: Rule, F: Finder<R>>(
    finder: &F,
    rule: &R,
    table: &Table,
    order: &[usize],
) -> Result<Option<[u32; 32]>, OutsideLimits> {
    let ordered = set_of(table)?.ordered(order).ok_or(OutsideLimits)?;
    Ok(lengths_by(finder, rule, &ordered))
}

pub fn plan<R: Rule, F: Finder<R>>(
    finder: &F,
    rule: &R,
    table: &Table,
) -> Result<Option<Plan>, OutsideLimits> {
    let small = set_of(table)?.small().ok_or(OutsideLimits)?;
    Ok(plan_by(finder, rule, &small))
}

pub fn bounds<R: Rule>(
    rule: &R,
    table: &Table,
    order: &[usize],
    lengths: &[u32],
) -> Result<Option<[u32; 32]>, OutsideLimits> {
    let ordered = set_of(table)?.ordered(order).ok_or(OutsideLimits)?;
    let arranged = ordered.arranged(lengths).ok_or(OutsideLimits)?;
    Ok(seek_bounds(rule, &arranged))
}
