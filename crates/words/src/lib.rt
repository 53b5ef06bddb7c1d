// The words of a space: its numbers, and four tables whose rows are read, put, moved and appended.
#![tactic(auto)]

pub mod iter;
pub mod row;
pub mod rows;
pub mod time;
