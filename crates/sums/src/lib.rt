// Laws of sums of floats: order, zeros, signs. No code.
#![tactic(auto)]

pub const ROUNDINGS: u32 = 1;
