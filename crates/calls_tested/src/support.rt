use analysis::task::Task;
use planner::open::OpenTable;
use planner::refusal::Refusal;
use std::alloc::Global;
use std::test::Fail;

pub fn task(cost: u32, deadline: u32, period: u32) -> Task {
    Task {
        cost,
        deadline,
        period,
    }
}

// The number by which a call was refused, or nothing where it was carried out.
pub fn refused<T: Drop>(r: Result<T, Refusal>) -> Option<u8> {
    r.err().map(u8::from)
}

// An open table with so many cores and tasks, each of them this one.
pub fn entered(heap: Global, cores: u32, count: u32, task: Task) -> Result<OpenTable, Fail> {
    let mut table = OpenTable::new(heap)?;
    table.cores(cores)?;
    for _ in 0..count {
        table.enter(task)?;
    }
    Ok(table)
}
