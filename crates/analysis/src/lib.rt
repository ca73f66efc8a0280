// Tasks in an order under a rule, on plain data: who passes, and the searches for lengths, a plan and bounds.
#![tactic(auto)]

pub mod bounds;
pub mod checks;
pub mod finder;
pub mod four_tests;
pub mod lengths;
mod level;
pub mod limits;
mod passing;
mod place;
pub mod plan;
mod rivals;
pub mod task;
pub mod task_set;
pub mod verdict;
