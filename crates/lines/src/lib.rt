// The lines of the planner's text, one by one, and the lists of numbers in them.

#![tactic(auto)]

pub mod list; // a list of numbers
pub mod line; // a line by its kind of form
