// Houses in turn: whose turn it is, and whom that house anchors.
#![tactic(auto)]

pub mod choose; // whom a house anchors
pub mod next; // whose turn it is
