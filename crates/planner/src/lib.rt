// Open and fixed tables, every call on them, and what any sequence of calls may rely on.
#![tactic(auto)]

mod columns;
pub mod marks;
pub mod refusal;
pub mod replay;
mod tables;

pub use tables::{fixed, open, rows};
