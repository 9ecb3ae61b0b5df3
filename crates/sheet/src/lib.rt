// The answer sheet: a line for each round, in lent bytes.
#![tactic(auto)]

pub mod line; // the bytes of one line
