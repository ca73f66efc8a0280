// The stored form of a table: lines of digits, frames, faults, reading and writing.
#![tactic(auto)]

mod digits;
pub mod fault;
mod frames;
mod kind;
mod lines;
pub mod notice;
pub mod place;
mod placing;
mod reader;
pub mod reading;
pub mod sheet;
mod stretch;
mod text;
pub mod writing;
