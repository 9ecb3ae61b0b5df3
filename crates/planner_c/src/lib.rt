// The operations for Rust and C, on slices of numbers. rust/planner and include/planner.h declare them in this order.
#![tactic(auto)]

pub mod tables; // the check of a table
pub mod levels; // level sheets, the component list, the search, its ceiling and the collapse
pub mod days; // the first day under k, vertices being anchored by term
pub mod sharing; // the sheet of the rounds that houses share
pub mod sessions; // a list of events
pub mod texts; // from a text to a sheet
