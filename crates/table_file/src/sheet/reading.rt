ghost use Rattle.std.specs.Prelude.{◌≡◌, [], IfOk};
ghost use Rattle.planner.specs.Tables.{held, opened};
ghost use Rattle.table_file.specs.Stored.{stored};
ghost use Rattle.table_file.specs.Sheets.{kept};

use super::Sheet;
use crate::place::Place;
use arrayvec::ArrayVec;
use planner::open::OpenTable;
use std::alloc::{AllocError, Global};

impl Sheet {
    // An empty sheet: one core, no tasks. Only this can want memory.
    pub fn new(heap: Global) -> Result<Sheet, AllocError>
        ensures { IfOk result (λ s. kept s ≡ stored 1 [] []) }
    {
        let table = OpenTable::new(heap)?;
        Ok(Sheet {
            table,
            places: ArrayVec::new(),
        })
    }

    // The table, without the places.
    pub fn table(&self) -> &OpenTable
        ensures { held result.now ≡ opened (kept self.now).cores (kept self.now).tasks }
    {
        &self.table
    }

    // The places, the highest first; none if the file had none.
    pub fn places(&self) -> &[Place]
        ensures { result.now ≡ (kept self.now).places }
    {
        &self.places
    }

    // Gives the table and drops the places.
    pub fn into_table(self) -> OpenTable
        ensures { held result ≡ opened (kept self).cores (kept self).tasks }
    {
        let Sheet { table, .. } = self;
        table
    }
}
