// The table of tenants: what it holds, whether it is in order, and who goes where when the layout changes.
#![tactic(auto)]

pub mod passes;

// How many nodes a reserve of the greatest height has, and 0, which is none: the length of an array by node.
pub const NODES: usize = 8192;

// How many tenants there are, and so how many entries a table has.
pub const TENANTS: usize = 4096;

// A tenant that moves: its number, its old node and its new one, and 1 if it is staged, else 0.
#[derive(Clone, Copy)]
pub struct Move {
    pub tenant: u16,
    pub from: u16,
    pub to: u16,
    pub staged: u16,
}
