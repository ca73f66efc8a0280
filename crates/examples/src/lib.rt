// Worked figures that the checker proves, and cases that are run.
#![tactic(auto)]

pub mod figures;
pub mod outsider;
#[cfg(test)]
mod tests;
