// The whole-pixel profile and demand 3: theorems about the public calls.
#![tactic(auto)]

pub const REQUEST: u32 = 12;
