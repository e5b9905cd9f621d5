//! Lists that exist in proofs alone, for what contracts are to know and no program has to keep.
#![tactic(auto)]

mod ghost_list;

pub use ghost_list::GhostList;
