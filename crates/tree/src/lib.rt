// The two counts of this trade, and the limits of a tree. Trees and their flat tables are definitions and laws: specs/ and proofs/.
#![tactic(auto)]

pub const MAX_NODES: usize = 1024;

pub const MAX_DEPTH: usize = 32;

// A node's number in the tables, and its place among its shown siblings: never the one for the other.
#[derive(Clone, Copy)]
pub struct NodeId(pub u32);

#[derive(Clone, Copy)]
pub struct Order(pub u32);
