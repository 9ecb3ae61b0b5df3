// The table lent for writing: its check, an edge added to it or dropped from it in place, and the status of such an event.
#![tactic(auto)]

pub mod edge; // an edge: two links
pub mod lent; // what is lent
mod link; // one link
pub mod status; // what an edge event is refused for
