// How a list of marks says which of n points are present: the one room that knows. Today a mark is an octet, 1 for a
// present point. Every function is total: marks past the end are 0, and what does not fit a lent list changes nothing
// and answers false.
#![tactic(auto)]

mod judging; // judging.rt: points counted and judged by their marks
mod laying; // laying.rt: marks put as a bitmap, and taken from one

pub use judging::{all_present, count, long, none_marked, odd, present, stray, unlike};
pub use laying::{fill, fill_all, put};
