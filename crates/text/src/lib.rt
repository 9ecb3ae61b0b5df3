// What the planner's text says, or the line that departs from its form (refusal 18).

#![tactic(auto)]

mod read; // the whole text

pub use read::{Summary, read_text};
