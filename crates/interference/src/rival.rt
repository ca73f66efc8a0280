// A rival of a task is any other task of the same table, as one question sees it: what a job of it counts for (its
// cost in a higher place, what its region can block for in a lower one), how often it comes, and its latest finish
// after release.
#[derive(Clone, Copy, Default)]
pub struct Rival {
    pub cost: u32,
    pub period: u32,
    pub finish: u32,
}
