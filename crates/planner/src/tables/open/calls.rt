ghost use Rattle.std.specs.Prelude.{◌≡◌, [], IfOk};
ghost use Rattle.planner.specs.Refusals.{Called};
ghost use Rattle.planner.specs.Tables.{held, opened};
ghost use Rattle.planner.specs.Calls.{CoresRefuses, CoresMakes, EnterRefuses, EnterMakes, StrikeRefuses, StrikeMakes, AmendRefuses, AmendMakes};

use super::OpenTable;
use crate::refusal::Refusal;
use crate::rows::Rows;
use analysis::checks::is_within_limits;
use analysis::limits::MOST_TASKS;
use analysis::task::Task;
use interference::limits::MOST_CORES;
use std::alloc::{AllocError, Global};

impl OpenTable {
    // An empty table with one core. Only this can want memory.
    pub fn new(heap: Global) -> Result<OpenTable, AllocError>
        ensures { IfOk result (λ t. held t ≡ opened 1 []) }
    {
        let items = Vec::with_capacity(heap, MOST_TASKS)?;
        let spare = Vec::with_capacity(heap, MOST_TASKS)?;
        Ok(OpenTable {
            rows: Rows { cores: 1, items },
            spare,
        })
    }

    // Sets the core count.
    pub fn cores(&mut self, count: u32) -> Result<(), Refusal>
        ensures { Called result (CoresRefuses (held self.old) count) (CoresMakes (held self.old) count) (held self.old) (held self.new) }
    {
        if count < 1 || count > MOST_CORES {
            return Err(Refusal::CoreCount);
        }
        self.rows.cores = count;
        Ok(())
    }

    // Adds a task after the last.
    pub fn enter(&mut self, task: Task) -> Result<(), Refusal>
        ensures { Called result (EnterRefuses (held self.old) task) (EnterMakes (held self.old) task) (held self.old) (held self.new) }
    {
        if self.rows.count() >= MOST_TASKS {
            return Err(Refusal::TableFull);
        }
        if !is_within_limits(&task) {
            return Err(Refusal::Limits);
        }
        self.rows.add(task);
        Ok(())
    }

    // Takes the task with this number out; later numbers fall by one.
    pub fn strike(&mut self, number: u32) -> Result<(), Refusal>
        ensures { Called result (StrikeRefuses (held self.old) number) (StrikeMakes (held self.old) number) (held self.old) (held self.new) }
    {
        if !self.rows.has(number) {
            return Err(Refusal::NoSuchTask);
        }
        self.rows.take_out(number);
        Ok(())
    }

    // Changes the cost of the task with this number.
    pub fn amend(&mut self, number: u32, cost: u32) -> Result<(), Refusal>
        ensures { Called result (AmendRefuses (held self.old) number cost) (AmendMakes (held self.old) number cost) (held self.old) (held self.new) }
    {
        if !self.rows.has(number) {
            return Err(Refusal::NoSuchTask);
        }
        if !self.rows.can_cost(number, cost) {
            return Err(Refusal::Limits);
        }
        self.rows.amend(number, cost);
        Ok(())
    }
}
