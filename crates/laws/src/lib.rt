// Theorems about the definitions of crate steps.
#![tactic(auto)]

pub const DEMAND: u32 = 3;
