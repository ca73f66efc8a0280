#![tactic(auto)]

// The plan of a table file, run: plans, and each refusal with its line and column.
#[cfg(test)]
mod plans;
#[cfg(test)]
mod refusals;
#[cfg(test)]
mod support;
