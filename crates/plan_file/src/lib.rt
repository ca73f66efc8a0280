// The program's whole work as one function on values: the bytes of a table file in, the bytes of an answer out.
#![tactic(auto)]

pub mod desk;
pub mod planning;
