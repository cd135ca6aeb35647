// Theorems about the order of the numbers, over the definitions of crate steps.
#![tactic(auto)]

pub const REQUEST: u32 = 6;
