#![tactic(auto)]

use std::io;

mod example;
mod planning;

use example::{CORES, TASKS};
use planning::plan;

// Plans the stored example under the full rule: an order, region lengths, and bounds.
fn main(rt: HostRuntime) -> io::Result<()> {
    println!(rt;
        "{} tasks on {CORES} cores, under the full rule",
        TASKS.len()
    )?;
    for (k, t) in TASKS.iter().enumerate() {
        println!(rt; "  task {}: {t}", k + 1)?;
    }
    plan(&rt, CORES, &TASKS)
}
