// The checked pages of document 01, worked out by the prover: specs/Pages.antt.
#![tactic(auto)]

pub const CHECKED_PAGES: u32 = 8;
