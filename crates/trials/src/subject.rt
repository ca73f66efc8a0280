use crate::plain_sums::Meaning;
use crate::table::Table;

// A rule under trial, and what it is to mean.
#[derive(Clone, Copy)]
pub struct Subject<R> {
    pub rule: R,
    pub meaning: Meaning,
}

// One table on which a rule is tried.
#[derive(Clone, Copy)]
pub struct Trial<'a, R> {
    pub rt: &'a HostRuntime,
    pub subject: &'a Subject<R>,
    pub table: &'a Table,
}
