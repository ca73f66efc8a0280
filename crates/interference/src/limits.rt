// What questions, tasks, handlers and sums keep to.

pub const MOST_CORES: u32 = 16;

// the longest period, and so the longest window
pub const MOST_TICKS: u32 = 65_535;

// the rivals of one task
pub const MOST_RIVALS: usize = 31;

// no rule's sum is larger
pub const MOST_SUM: u32 = 1_000_000_000;
