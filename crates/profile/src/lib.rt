// The whole-pixel profile: which pages are in it. Definitions and theorems.
#![tactic(auto)]

pub const REQUEST: u32 = 12;
