ghost use Rattle.std.specs.Prelude.{◌≡◌, ℕ, ◌≤◌, vec_len, vec_capacity};
ghost use Rattle.planner.specs.Rows.{Fresh};

use crate::rows::Rows;

mod calls;
mod reading;

// A table whose tasks and cores can be changed. Lengths and bounds are not set yet: 1 and 0. The list for the order of a
// fixed table is kept, empty, so that to fix wants no memory.
#[derive(Drop)]
pub struct OpenTable {
    pub(in crate::tables) rows: Rows,
    pub(in crate::tables) spare: Vec<usize>,
    ghost fresh: { Fresh rows.items.items },
    ghost none: { vec_len spare ≡ 0 },
    ghost sparing: { 32 ≤ vec_capacity spare },
}
