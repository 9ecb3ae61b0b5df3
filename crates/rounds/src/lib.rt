// Rounds: each anchors the choice of the house whose turn it is, and its line is written. The rounds of an ordinary sheet are those of one
// house.
#![tactic(auto)]

pub mod play; // one round
pub mod write; // the sheet of all rounds
