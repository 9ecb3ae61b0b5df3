// The level work as an operation.
#![tactic(auto)]

pub mod work; // the level sheet with components
