ghost use Rattle.std.specs.Prelude.{◌≡◌};
ghost use Rattle.planner.specs.Rows.{tasks, Fresh};
ghost use Rattle.planner.specs.Tables.{held};
ghost use Rattle.planner.specs.Reading.{OpenWithinLimits};

use super::OpenTable;
use crate::rows::Row;

// A fixed table has these two calls too; each kind promises of its own what it holds.
impl OpenTable {
    // How many cores the controller has.
    pub fn core_count(&self) -> u32
        ensures { result ≡ (held self.now).cores }
    {
        self.rows.cores
    }

    // The task records in number order; while the table is open, lengths are 1 and bounds 0.
    pub fn rows(&self) -> &[Row]
        ensures tasks { tasks result.now ≡ (held self.now).tasks }
        ensures fresh { Fresh result.now }
        ensures within { OpenWithinLimits (held self.now) }
    {
        &self.rows.items
    }
}
