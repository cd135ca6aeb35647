// A page whose tops are not sorted, worked out in specs/.
#![tactic(auto)]

pub const LEAVES: u32 = 3;
