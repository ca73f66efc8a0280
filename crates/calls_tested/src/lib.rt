#![tactic(auto)]

// The public calls on tables, run: each refusal on both sides of its limit, and long mixed sequences.
#[cfg(test)]
mod line;
#[cfg(test)]
mod reading;
#[cfg(test)]
mod script;
#[cfg(test)]
mod scripts;
#[cfg(test)]
mod sequences;
#[cfg(test)]
mod sizes;
#[cfg(test)]
mod support;
