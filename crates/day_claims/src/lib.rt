// A day of a display: theorems in specs/.
#![tactic(auto)]

pub const REQUEST: u32 = 2;
