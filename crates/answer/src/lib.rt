// The text-to-sheet call: a text's answer sheet into lent bytes, or a refusal.
#![tactic(auto)]

pub mod call; // the call

pub use call::text_to_sheet;
