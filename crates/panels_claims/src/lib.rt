// A second panel on the same page: theorems in specs/.
#![tactic(auto)]

pub const REQUEST: u32 = 8;
