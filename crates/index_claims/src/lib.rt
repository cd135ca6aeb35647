// The index after a relayout: theorems in specs/.
#![tactic(auto)]

pub const REQUEST: u32 = 10;
