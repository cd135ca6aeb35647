// Theorems about first baselines, over the definitions of crate steps.
#![tactic(auto)]

pub const REQUEST: u32 = 11;
