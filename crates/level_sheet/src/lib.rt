// Level sheets that are handed in.
#![tactic(auto)]

pub mod check; // the check of a level sheet
