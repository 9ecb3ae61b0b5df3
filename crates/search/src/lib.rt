// The follower search: who rises when one more vertex is anchored.
#![tactic(auto)]

pub mod find; // the search on the defined sheet
pub mod operation; // the search as an operation

pub use find::{Found, search};
pub use operation::followers;
