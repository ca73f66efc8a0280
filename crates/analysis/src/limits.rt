// The limits on sets of tasks.

pub const MOST_TASKS: usize = 32;

// few enough to search all orders of them
pub const MOST_PLANNED: usize = 8;
