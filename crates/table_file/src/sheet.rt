ghost use Rattle.planner.specs.Tables.{held};
ghost use Rattle.table_file.specs.Stored.{AllOrNone, EachFits};

use crate::place::Place;
use arrayvec::ArrayVec;
use planner::open::OpenTable;

mod filling;
mod reading;

// What a file carries: an open table, and a place for each of its tasks or none at all. The room for 32 tasks is
// reserved when the sheet is made, so that reading a file wants no memory.
#[derive(Drop)]
pub struct Sheet {
    pub(crate) table: OpenTable,
    pub(crate) places: ArrayVec<Place, 32>,
    ghost whole: { AllOrNone (held table).tasks places.items },
    ghost each: { EachFits (held table).tasks places.items },
}
