// Sessions: the list of events, over the lent table and the record.
#![tactic(auto)]

pub mod lent; // the lent slices
pub mod run; // the list of events
