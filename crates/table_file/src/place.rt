// A task's place in an order is where this stands in a list: the task's number and the length of its region.
#[derive(Clone, Copy, Default, PartialEq, Eq, Debug)]
pub struct Place {
    pub task: u32,
    pub length: u32,
}
