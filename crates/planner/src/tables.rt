// The fields of a table are seen in here only; all other code goes by the public calls.
pub mod fixed;
pub mod open;
mod records;
pub mod rows;
mod writing;
