// What every operation on levels is handed.
#![tactic(auto)]

pub mod pair; // the order of pairs (level, layer)
pub mod input; // refusals 1 to 10
pub mod lent; // the lent slices
