// What a task's rivals may take from its window: shares, questions, rules, layers, and the laws that every rule keeps.
#![tactic(auto)]

pub mod ask;
pub mod choice;
pub mod full;
pub mod growth;
pub mod handler;
pub mod interrupt;
pub mod limited;
pub mod limits;
pub mod question;
pub mod refusal;
pub mod rival;
pub mod rule;
mod shares;
pub mod steady;
