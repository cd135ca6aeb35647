// Theorems: on a page of the whole-pixel profile the engine is exact.
#![tactic(auto)]

pub const REQUEST: u32 = 12;
